//! The laws of a text's fate, as the contracts of calls that do nothing.

ghost use Rattle.module_reader.specs.Fates.{TextIsReadOrNot, TextHasOneRefusal, TextSpellsOneModule};

/// A text that is read is refused only for lack of memory. Does nothing.
pub fn a_text_is_read_or_refused()
    ensures { TextIsReadOrNot }
{}

/// The refusals of a text except lack of memory are one: one phase, one cause and one place. Does
/// nothing.
pub fn a_text_has_one_refusal()
    ensures { TextHasOneRefusal }
{}

/// A text spells one module, however deep it nests. Does nothing.
pub fn a_text_spells_one_module()
    ensures { TextSpellsOneModule }
{}
