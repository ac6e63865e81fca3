// A name's text in a file: its letters, its bytes as words, and the forms that RESERVED keeps for names that are made.
#![tactic(auto)]

ghost use Rattle.std.specs.Prelude.{◌≡◌, true, [], ◌∷◌, ◌+◌, ◌<◌, ◌≤◌, length};
ghost use Rattle.meaning.specs.Text.{packed, quoted};
ghost use Rattle.meaning.specs.Ast.{name};
ghost use Rattle.meaning.specs.Reserved.{letter_of_name, digit, digits, all};
ghost use Rattle.spelling.specs.Texts.{follows, word_text};
ghost use Rattle.spelling.specs.Forms.{Packs, FormIs};

use names::Key;

// What RESERVED says of a name: free, like a type variable that the checker makes, or like another name that it makes.
#[derive(Clone, Copy, Debug, PartialEq, Eq)]
pub enum Form {
    Free,
    Variable,
    Word,
}

// The beginnings of reserved names.
const SELF: &[u8] = b"self";

const CONTEXT: &[u8] = b"d_ctx_";

const SUPER: &[u8] = b"__super_";

// An ASCII letter, a digit or the underscore.
fn is_letter(b: u8) -> bool
    ensures { result ≡ letter_of_name b }
{
    b.is_ascii_alphanumeric() || b == b'_'
}

// Every byte is one of a name.
pub fn letters(text: &[u8]) -> bool
    ensures { result ≡ all letter_of_name text.now }
{
    text.iter().all(|b| is_letter(*b))
}

// At least one digit, and nothing else.
fn all_digits(text: &[u8]) -> bool
    ensures { result ≡ digits text.now }
{
    !text.is_empty() && text.iter().all(|b| b.is_ascii_digit())
}

// The bytes as words, from the last to the first: each is put before the others, so that zeros stand at the end.
pub fn key_of(text: &[u8]) -> Key
    requires { length text.now ≤ 32 }
    ensures { Packs text.now result }
{
    let mut k = Key {
        over: 0,
        a: 0,
        b: 0,
        c: 0,
        d: 0,
    };
    for b in text.iter().rev() {
        k = names::push(k, u64::from(*b));
    }
    k
}

// The text is a letter and digits after it.
fn numbered(text: &[u8], letter: u8) -> bool
    ensures { result ≡ follows (letter ∷ []) digits text.now }
{
    match text {
        [first, others @ ..] => *first == letter && all_digits(others),
        [] => false,
    }
}

// The text is like a name that the checker makes: `self`, `d` plus digits, or a beginning `d_ctx_` or `__super_`.
fn like_word(text: &[u8]) -> bool
    ensures { result ≡ word_text text.now }
{
    text == SELF || numbered(text, b'd') || text.starts_with(CONTEXT) || text.starts_with(SUPER)
}

// The form of the name of that text.
pub fn form_of(text: &[u8]) -> Form
    requires len_bound { length text.now ≤ 32 }
    requires len_value { all letter_of_name text.now ≡ true }
    ensures { FormIs (name (packed 32 text.now)) result }
{
    if numbered(text, b't') {
        Form::Variable
    } else if like_word(text) {
        Form::Word
    } else {
        Form::Free
    }
}
