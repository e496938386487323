//! Elements of header extensions by their ids (RFC 8285, section 4), and their values. No call allocates.

ghost use Rattle.std.specs.Prelude.{◌≡◌, option_map};
ghost use Rattle.codec_payload_rtp.specs.Elements.{elements_left};
ghost use Rattle.codec_payload_rtp.specs.ExtensionFormats.{bytes_with, elements_of};
ghost use Rattle.codec_payload_rtp.specs.RtpValues.{extension_of};

use codec_payload_rtp::elements::Elements;
use codec_payload_rtp::rtp::HeaderExtension;

/// Returns the value of the first element with this id.
fn value_with<'a>(id: u8, elements: Elements<'a>) -> Option<&'a [u8]>
    ensures { option_map (λ bytes. bytes.now) result ≡ bytes_with id (elements_left elements.entry) }
{
    for element in elements {
        if element.id == id {
            return Some(element.bytes);
        }
    }
    None
}

/// Returns the value of the first element with this id in an extension, if there is one.
pub fn value_in<'a>(id: u8, extension: &Option<HeaderExtension<'a>>) -> Option<&'a [u8]>
    ensures { option_map (λ bytes. bytes.now) result ≡ bytes_with id (elements_of (extension_of extension.now)) }
{
    let Some(extension) = extension else {
        return None;
    };
    let Some(elements) = extension.elements() else {
        return None;
    };
    value_with(id, elements)
}
