//! A name, and where it is in a query.
ghost use Rattle.std.specs.Prelude.{◌≡◌, length, take, true};
ghost use Rattle.query_hints.specs.Places.{Stands};

/// A name of a query in lower case, with the name of its table where that is in front, and the offset
/// of its first byte.
#[derive(Clone, Copy, Drop)]
pub struct Place<'a> {
    pub owner: Option<&'a str>,
    pub name: &'a str,
    pub offset: usize,
}

fn begins_with(bytes: &[u8], name: &str) -> bool
    ensures { result ≡ true → take (length name.now) bytes.now ≡ name.now }
{
    bytes.starts_with(name.as_bytes())
}

impl Place<'_> {
    /// Whether the text has the name at the offset.
    pub fn stands_in(&self, text: &str) -> bool
        ensures { result ≡ true → Stands text.now self.now }
    {
        match text.as_bytes().get(self.offset..) {
            Some(rest) => begins_with(rest, self.name),
            None => false,
        }
    }
}
