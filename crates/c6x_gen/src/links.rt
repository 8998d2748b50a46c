ghost use Rattle.std.specs.Prelude.{◌≡◌, ◌≤◌, ◌∷◌, [], length, IfOk};
ghost use Rattle.c6x_gen.specs.Lists.{each_library};
ghost use Rattle.c6x_gen.specs.Links.{app_link, library_link, object_name};
ghost use Rattle.c6x_gen.specs.Sources.{library_name};

use crate::names::{library_name, named_library, object_name};
use c6x_base::{Name, Row};
use c6x_plan::LinkPlan;
use std::alloc::{AllocError, Global};

/// The slots of each module's table: one for the executable and one for each library.
const SLOTS: u32 = 12;

/// The link plans, in the order of the modules.
#[tactic(auto, using(crate::proofs::Each::none, crate::proofs::Each::more))]
pub fn links_of(alloc: Global) -> Result<Row<LinkPlan>, AllocError>
    ensures { IfOk result (λ links. links ≡ app_link ∷ each_library library_link) }
{
    let mut links = Row::new(alloc);
    links.push(app_link(alloc)?)?;
    for before in 0..11 {
        links.push(library_link(alloc, before + 1)?)?;
    }
    Ok(links)
}

/// How the executable is linked.
fn app_link(alloc: Global) -> Result<LinkPlan, AllocError>
    ensures { IfOk result (λ link. link ≡ app_link) }
{
    Ok(LinkPlan {
        library: false,
        index: 0,
        table: SLOTS,
        entry: Some(Name::from_bytes(alloc, b"start")?),
        soname: None,
        needed: library_names(alloc)?,
        objects: one_object(alloc, b"app")?,
    })
}

/// How a library is linked.
fn library_link(alloc: Global, library: u32) -> Result<LinkPlan, AllocError>
    ensures { IfOk result (λ link. link ≡ library_link library) }
{
    let name = library_name(library);
    Ok(LinkPlan {
        library: true,
        index: library,
        table: SLOTS,
        entry: None,
        soname: Some(named_library(alloc, library)?),
        needed: Row::new(alloc),
        objects: one_object(alloc, name.as_bytes())?,
    })
}

/// The names of the libraries, in order.
#[tactic(auto, using(crate::proofs::Each::none, crate::proofs::Each::more))]
fn library_names(alloc: Global) -> Result<Row<Name>, AllocError>
    ensures { IfOk result (λ names. names ≡ each_library library_name) }
{
    let mut names = Row::new(alloc);
    for before in 0..11 {
        names.push(named_library(alloc, before + 1)?)?;
    }
    Ok(names)
}

/// The one object of a module.
fn one_object(alloc: Global, image: &[u8]) -> Result<Row<Name>, AllocError>
    requires { length image.now ≤ 41 }
    ensures { IfOk result (λ objects. objects ≡ object_name image.now ∷ []) }
{
    let mut objects = Row::new(alloc);
    objects.push(object_name(alloc, image)?)?;
    Ok(objects)
}
