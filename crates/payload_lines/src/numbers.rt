//! Numbers in lines.

ghost use Rattle.std.specs.Prelude.{◌≡◌, ◌⊎◌, ◌↔◌, ◌^◌, codes, IsSome, Some, false, true};
ghost use Rattle.std.specs.Option.{SomeIff};
ghost use Rattle.std.specs.Str.Parse.{digits_value};
ghost use Rattle.payload_lines.specs.Numbers.{IsNumber};

/// The number that decimal digits spell, if it fits: a sign is refused, and leading zeros are accepted.
pub fn decimal(field: &str) -> Option<u64>
    ensures { SomeIff result (IsNumber (2 ^ 64) field.now) (digits_value 10 field.now) }
{
    if field.starts_with('+') {
        return None;
    }
    field.parse().ok()
}

/// The same of a number that is an index or a length.
pub fn count(field: &str) -> Option<usize>
    ensures { SomeIff result (IsNumber (2 ^ 64) field.now) (digits_value 10 field.now) }
{
    usize::try_from(decimal(field)?).ok()
}

/// Whether the field is `1`; `None` if it is neither `0` nor `1`.
pub fn truth(field: &str) -> Option<bool>
    ensures found { IsSome result ↔ ((field.now ≡ codes "0") ⊎ (field.now ≡ codes "1")) }
    ensures no { (result ≡ Some false) ↔ (field.now ≡ codes "0") }
    ensures yes { (result ≡ Some true) ↔ (field.now ≡ codes "1") }
{
    match field {
        "0" => Some(false),
        "1" => Some(true),
        _ => None,
    }
}
