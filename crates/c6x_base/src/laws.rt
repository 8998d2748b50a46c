ghost use Rattle.c6x_base.specs.Search.{OneSearch};

/// Each module has exactly one search list.
pub fn one_search()
    ensures { OneSearch }
{}
