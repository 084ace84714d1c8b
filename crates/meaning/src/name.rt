//! The names of tables and columns.
ghost use Rattle.std.specs.Prelude.{◌≡◌};
ghost use Rattle.std.specs.List.{list_all};
ghost use Rattle.meaning.specs.Catalog.{begins_name, continues_name, has_name_form, is_name};

use crate::reserved::is_reserved;

fn begins_name(byte: u8) -> bool
    ensures { result ≡ begins_name byte }
{
    byte.is_ascii_lowercase() || byte == b'_'
}

fn continues_name(byte: u8) -> bool
    ensures { result ≡ continues_name byte }
{
    begins_name(byte) || byte.is_ascii_digit()
}

fn all_continue_name(bytes: &[u8]) -> bool
    ensures { result ≡ list_all continues_name bytes.now }
{
    bytes.iter().all(|byte| continues_name(*byte))
}

fn has_name_form(word: &[u8]) -> bool
    ensures { result ≡ has_name_form word.now }
{
    let Some((first, rest)) = word.split_first() else {
        return false;
    };
    begins_name(*first) && all_continue_name(rest)
}

/// Whether the word is in the form of a name and not reserved, however long it is.
pub fn is_name(word: &[u8]) -> bool
    ensures { result ≡ is_name word.now }
{
    has_name_form(word) && !is_reserved(word)
}
