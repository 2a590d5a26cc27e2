//! Laws of the definitions. They call nothing: each is its contract.

ghost use Rattle.script_compiler.specs.Calls.{CheckedCalls, CheckedRoots};
ghost use Rattle.script_compiler.specs.Fits.{CheckedMethods};

/// In a script whose names are in order, each call, spawn, detach and add of a method names a method that is there, of
/// that actor, with as many parameters as there are arguments.
pub fn calls_are_there()
    ensures { CheckedCalls }
{}

/// In such a script each root names a method that is there, with as many parameters as it has arguments.
pub fn roots_are_there()
    ensures { CheckedRoots }
{}

/// In such a script the code of each method names numbers and handles that the method has a place for, and uses each handle as what
/// was kept there last.
pub fn methods_use_their_places()
    ensures { CheckedMethods }
{}
