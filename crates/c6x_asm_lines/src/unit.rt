use crate::data_path::DataPath;
use c6x_base::Side;
use c6x_encoding::UnitKind;

/// A functional unit as a line names it.
#[derive(Clone, Copy)]
pub struct Unit {
    pub kind: UnitKind,
    pub side: Side,
    pub path: DataPath,
}
