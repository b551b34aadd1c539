//! The laws of the names of modules, as the contracts of calls that do nothing.

ghost use Rattle.module_reader.specs.Correct.{ModuleNamesArePlain, ModuleNamesAreShort};

/// The name of a module that the tokens of a text spell ends neither a field of a fuse file nor its text. Does nothing.
pub fn module_names_are_plain()
    ensures { ModuleNamesArePlain }
{}

/// The name of a module that a text spells is no longer than any name may be. Does nothing.
pub fn module_names_are_short()
    ensures { ModuleNamesAreShort }
{}
