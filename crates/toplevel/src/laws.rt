//! Laws of the library: each function does nothing, and its contract is the law.
ghost use Rattle.toplevel.specs.Library.{IsLibraryLoaded};

/// The library's text has no fault: it is sentences, one after another.
pub fn library_loads()
    ensures { IsLibraryLoaded }
{}
