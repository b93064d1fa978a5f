//! The fields of a head, looked up by their names.
ghost use Rattle.pawn_wire.specs.Common.{IsHeaderWithin};
ghost use Rattle.std.specs.Prelude.{All, length};

use httparse::spans::HeaderSpan;

/// The fields of a head: the bytes of the head, and the places of each name and value in them.
#[derive(Drop)]
pub(crate) struct Fields<'a> {
    pub(crate) bytes: &'a [u8],
    pub(crate) spans: &'a [HeaderSpan],
    ghost within: { All (IsHeaderWithin (length bytes.now)) spans.now },
}

/// The result of a search for the fields with one name: none, the value of the only one, or several.
#[derive(Clone, Copy, Drop)]
pub(crate) enum Found<'a> {
    Missing,
    One(&'a [u8]),
    Several,
}

impl<'a> Fields<'a> {
    ghost use Rattle.httparse.specs.Spans.{IsHeaderWithin, header_bytes};
    ghost use Rattle.pawn_wire.specs.Fields.{pairs_of, values_of, IsFound};
    ghost use Rattle.std.specs.List.{list_any};
    ghost use Rattle.std.specs.Prelude.{◌≡◌, ◌&&◌, length, map, All};
    ghost use Rattle.std.specs.Str.{str_eq_ignore_ascii_case};

    /// Makes the fields of a head from its bytes and their places in them.
    pub(crate) fn new(bytes: &'a [u8], spans: &'a [HeaderSpan]) -> Fields<'a>
        requires within { All (IsHeaderWithin (length bytes.now)) spans.now }
        ensures pairs { pairs_of result ≡ map (header_bytes bytes.now) spans.now }
    {
        Fields { bytes, spans }
    }

    /// Returns whether a field has this name. The case of letters is ignored.
    pub(crate) fn is_named(&self, field: &HeaderSpan, name: &[u8]) -> bool
        requires within { IsHeaderWithin (length self.now.bytes.now) field.now }
        ensures value { result ≡ str_eq_ignore_ascii_case (header_bytes self.now.bytes.now field.now).0 name.now }
    {
        field.name.of(self.bytes).eq_ignore_ascii_case(name)
    }

    /// Searches for the fields with this name. The case of letters is ignored.
    pub(crate) fn find(&self, name: &[u8]) -> Found<'a>
        ensures found { IsFound (values_of name.now (pairs_of self.now)) result }
    {
        let mut found = Found::Missing;
        for field in self.spans {
            if self.is_named(field, name) {
                found = match found {
                    Found::Missing => Found::One(field.value.of(self.bytes)),
                    _ => Found::Several,
                };
            }
        }
        found
    }

    /// Returns how many fields have this name.
    pub(crate) fn count(&self, name: &[u8]) -> usize
        ensures value { result ≡ length (values_of name.now (pairs_of self.now)) }
    {
        let mut count = 0;
        for field in self.spans {
            if self.is_named(field, name) {
                count += 1;
            }
        }
        count
    }

    /// Returns whether a field has this name and this value. The case of letters is ignored.
    fn is_pair(&self, field: &HeaderSpan, name: &[u8], value: &[u8]) -> bool
        requires within { IsHeaderWithin (length self.now.bytes.now) field.now }
        ensures value { result ≡ (str_eq_ignore_ascii_case (header_bytes self.now.bytes.now field.now).0 name.now
            && str_eq_ignore_ascii_case (header_bytes self.now.bytes.now field.now).1 value.now) }
    {
        self.is_named(field, name) && field.value.of(self.bytes).eq_ignore_ascii_case(value)
    }

    /// Returns whether some field has this name and this value. The case of letters is ignored.
    pub(crate) fn has_value(&self, name: &[u8], value: &[u8]) -> bool
        ensures value { result ≡ list_any (λ v. str_eq_ignore_ascii_case v value.now) (values_of name.now (pairs_of self.now)) }
    {
        let mut found = false;
        for field in self.spans {
            found |= self.is_pair(field, name, value);
        }
        found
    }
}
