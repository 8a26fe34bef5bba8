// The coder and the decoder of one label.
ghost use Rattle.punycode.specs.Calls.{Encodes, Decodes};
ghost use Rattle.sagebasket.specs.Outside.{of_encoded, of_decoded, Tells};

use crate::numbers::tell_written;

// The encoding of a label, "xn--" and what follows: with 0 it is written.
#[unsafe(no_mangle)]
pub extern "C" fn sagebasket_encode(
    label: &[u32],
    ascii: &mut [u8; 63],
    answer: &mut [u32; 12],
) -> u32
    ensures { Tells of_encoded (Encodes label.now ascii.old ascii.new) answer.new result }
{
    tell_written(punycode::encode(label, ascii), answer)
}

// The label that octets encode: with 0 it is written.
#[unsafe(no_mangle)]
pub extern "C" fn sagebasket_decode(
    ascii: &[u8],
    label: &mut [u32; 63],
    answer: &mut [u32; 12],
) -> u32
    ensures { Tells of_decoded (Decodes ascii.now label.old label.new) answer.new result }
{
    tell_written(punycode::decode(ascii, label), answer)
}
