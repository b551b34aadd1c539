//! The words of directives.

ghost use Rattle.std.specs.Prelude.{◌≡◌};
ghost use Rattle.abel_macros.specs.Prelude.{list_any, str_eq_ignore_ascii_case, is_listed};
ghost use Rattle.abel_macros.specs.Rules as spec;

/// A directive.
#[derive(Clone, Copy)]
pub enum Directive {
    /// `@CONST`
    Const,
    /// `@IF`
    If,
    /// `@IFDEF`
    IfDefined,
    /// `@IFNDEF`
    IfUndefined,
    /// `@IRP`
    Each,
    /// `@REPEAT`
    Repeat,
    /// `@EXPR`
    Value,
    /// `@RADIX`
    Radix,
    /// `@DCSET` or `@ONSET`
    DontCare,
    /// A directive that the project leaves out.
    LeftOut,
    /// Another word that begins with `@`.
    Unknown,
}

const LEFT_OUT: [&[u8]; 11] = [
    b"@ALTERNATE",
    b"@STANDARD",
    b"@INCLUDE",
    b"@MESSAGE",
    b"@EXIT",
    b"@PAGE",
    b"@IRPC",
    b"@IFB",
    b"@IFNB",
    b"@IFIDEN",
    b"@IFNIDEN",
];

/// Whether a word is one of these, without regard to case.
fn is_listed(words: &[&[u8]], word: &[u8]) -> bool
    ensures { result ≡ list_any (λ k. str_eq_ignore_ascii_case k.now word.now) words.now }
{
    words.iter().any(|listed| listed.eq_ignore_ascii_case(word))
}

/// Whether a directive is one that the project leaves out.
fn is_left_out(word: &[u8]) -> bool
    ensures { result ≡ is_listed spec.left_out word.now }
{
    is_listed(&LEFT_OUT, word)
}

/// Whether a word is `@DCSET` or `@ONSET`.
fn is_dont_care(word: &[u8]) -> bool
    ensures { result ≡ spec.is_dont_care word.now }
{
    b"@DCSET".eq_ignore_ascii_case(word) || b"@ONSET".eq_ignore_ascii_case(word)
}

/// The directive of a word that takes nothing after it, or is refused.
#[tactic(auto, unfolding(crate::specs::Words::plain_directive))]
fn plain_directive(word: &[u8]) -> Directive
    ensures { result ≡ spec.plain_directive word.now }
{
    if is_dont_care(word) {
        Directive::DontCare
    } else if is_left_out(word) {
        Directive::LeftOut
    } else {
        Directive::Unknown
    }
}

/// The directive of a word that repeats, reports or sets something, or of a further one.
#[tactic(auto, unfolding(crate::specs::Words::further_directive))]
fn further_directive(word: &[u8]) -> Directive
    ensures { result ≡ spec.further_directive word.now }
{
    if b"@IRP".eq_ignore_ascii_case(word) {
        Directive::Each
    } else if b"@REPEAT".eq_ignore_ascii_case(word) {
        Directive::Repeat
    } else if b"@EXPR".eq_ignore_ascii_case(word) {
        Directive::Value
    } else if b"@RADIX".eq_ignore_ascii_case(word) {
        Directive::Radix
    } else {
        plain_directive(word)
    }
}

impl Directive {
    /// The directive of a word, without regard to case.
    #[tactic(auto, unfolding(crate::specs::Words::directive_of))]
    pub fn of(word: &[u8]) -> Directive
        ensures { result ≡ spec.directive_of word.now }
    {
        if b"@CONST".eq_ignore_ascii_case(word) {
            Directive::Const
        } else if b"@IF".eq_ignore_ascii_case(word) {
            Directive::If
        } else if b"@IFDEF".eq_ignore_ascii_case(word) {
            Directive::IfDefined
        } else if b"@IFNDEF".eq_ignore_ascii_case(word) {
            Directive::IfUndefined
        } else {
            further_directive(word)
        }
    }
}
