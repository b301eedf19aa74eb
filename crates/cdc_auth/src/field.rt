//! Fields of a packet.

ghost use Rattle.std.specs.Prelude.{◌≡◌, ◌<◌, ◌==◌, length, IfSome};
ghost use Rattle.std.specs.List.{position_from};
ghost use Rattle.std.specs.Option.{option_map};
ghost use Rattle.cdc_auth.specs.Credentials.{field_viewed, zero_ended_field, sized_field};

/// A field of a packet, and what stands behind it.
#[derive(Clone, Copy)]
pub struct FieldView<'a> {
    pub bytes: &'a [u8],
    pub behind: &'a [u8],
}

/// Where the first zero stands.
fn zero_at(bytes: &[u8]) -> Option<usize>
    ensures place { result ≡ position_from (λ byte. byte == 0) 0 bytes.now }
    ensures within { IfSome result (λ at. at < length bytes.now) }
{
    bytes.iter().position(|&byte| byte == 0)
}

/// The field that ends with the first zero; none where there is no zero.
pub(crate) fn zero_ended(bytes: &[u8]) -> Option<FieldView<'_>>
    ensures { option_map field_viewed result ≡ zero_ended_field bytes.now }
{
    match zero_at(bytes) {
        None => None,
        Some(at) => {
            let (_, behind) = bytes.split_at(at + 1);
            Some(FieldView {
                bytes: &bytes[..at],
                behind,
            })
        }
    }
}

/// The field whose first byte tells its length; none where that is above `most`, or the bytes end before.
pub(crate) fn sized(most: u8, bytes: &[u8]) -> Option<FieldView<'_>>
    ensures { option_map field_viewed result ≡ sized_field most bytes.now }
{
    let [size, behind @ ..] = bytes else {
        return None;
    };
    let size = *size as usize;
    if size <= most as usize && size <= behind.len() {
        let (bytes, behind) = behind.split_at(size);
        Some(FieldView { bytes, behind })
    } else {
        None
    }
}
