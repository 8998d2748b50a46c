use c6x_base::Name;
use c6x_gen::plan_of;
use c6x_plan::{LinkPlan, ModulePlan, ProcessPlan};
use std::alloc::Global;
use std::io::{self, Write};

/// Prints the texts that a number generates, its link plans and its plan.
pub fn put_generated<W: Write + Drop>(alloc: Global, out: &mut W, number: u32) -> io::Result<()> {
    if number > 999_999 {
        return writeln!(out, "?");
    }
    let made = plan_of(alloc, number)?;
    for source in made.sources.as_slice() {
        out.write_all(source.as_bytes())?;
    }
    put_links(out, made.links.as_slice())?;
    let plan = &made.plan;
    writeln!(out, "quantum {}", plan.quantum)?;
    put_modules(out, plan.modules.as_slice())?;
    put_processes(out, plan.processes.as_slice())
}

/// Prints link plans.
fn put_links<W: Write + Drop>(out: &mut W, links: &[LinkPlan]) -> io::Result<()> {
    for link in links {
        put_link(out, link)?;
    }
    Ok(())
}

/// Prints a link plan.
fn put_link<W: Write + Drop>(out: &mut W, link: &LinkPlan) -> io::Result<()> {
    let output = if link.library {
        "library"
    } else {
        "executable"
    };
    write!(out, "{output} {} {}", link.index, link.table)?;
    put_names(out, "entry", link.entry.as_slice())?;
    put_names(out, "soname", link.soname.as_slice())?;
    put_names(out, "needed", link.needed.as_slice())?;
    put_names(out, "object", link.objects.as_slice())?;
    writeln!(out)
}

/// Prints names, each behind a word.
fn put_names<W: Write + Drop>(out: &mut W, word: &str, names: &[Name]) -> io::Result<()> {
    for name in names {
        put_name(out, word, name)?;
    }
    Ok(())
}

/// Prints a name behind a word.
fn put_name<W: Write + Drop>(out: &mut W, word: &str, name: &Name) -> io::Result<()> {
    write!(out, " {word} ")?;
    out.write_all(name.as_bytes())
}

/// Prints the modules of a plan.
fn put_modules<W: Write + Drop>(out: &mut W, modules: &[ModulePlan]) -> io::Result<()> {
    for module in modules {
        write!(out, "module")?;
        put_name(out, "as", &module.name)?;
        put_name(out, "of", &module.file)?;
        writeln!(out)?;
    }
    Ok(())
}

/// Prints the processes of a plan.
fn put_processes<W: Write + Drop>(out: &mut W, processes: &[ProcessPlan]) -> io::Result<()> {
    for process in processes {
        write!(out, "process")?;
        put_name(out, "as", &process.name)?;
        write!(out, " of {} limit {}", process.module, process.limit)?;
        writeln!(out, " stack {} arg {}", process.stack, process.arg)?;
    }
    Ok(())
}
