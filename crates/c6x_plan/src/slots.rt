ghost use Rattle.c6x_plan.specs.Rules.{AddsWithin, SetsOnce};

use crate::plan_error::PlanError;
use c6x_base::Row;

/// Sets what lines may say once.
pub fn set_once<T: Drop>(slot: &mut Option<T>, value: T, line: u32) -> Result<(), PlanError>
    ensures { SetsOnce result slot.old slot.new value line }
{
    if slot.is_some() {
        return Err(PlanError::Syntax { line });
    }
    *slot = Some(value);
    Ok(())
}

/// Adds an item to a list that may have so many.
pub fn add_within<T: Drop>(row: &mut Row<T>, item: T, most: u32, line: u32) -> Result<(), PlanError>
    ensures { AddsWithin result row.old row.new item most line }
{
    if row.as_slice().len() >= most as usize {
        return Err(PlanError::Count { line });
    }
    row.push(item)?;
    Ok(())
}
