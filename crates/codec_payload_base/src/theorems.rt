//! Theorems on LEB128 and on extended ids. These functions exist for their proofs and do nothing.

ghost use Rattle.codec_payload_base.specs.Bits.{ReadsLebAtFront};
ghost use Rattle.codec_payload_base.specs.Leb.{WritesLeb, WritesShortest, TakesNine, FindsLeb};
ghost use Rattle.codec_payload_base.specs.Extended.{NumbersGoAlong};
ghost use Rattle.codec_payload_base.specs.PictureIds.{IdsGoAlong};
ghost use Rattle.codec_payload_base.specs.declared.picture_id.PictureId.TheVariants.{Short, Long};

/// LEB128 (AV1 bitstream specification, section 4.10.5). The bytes written for a number encode it in as few bytes as possible, at
/// most nine below 2^63. Reading returns the number that the bytes at the front encode, and no other.
/// [`BitRead::get_leb128`](crate::bits::BitRead::get_leb128) does the same at a whole byte.
pub fn leb128_says_numbers()
    ensures says { WritesLeb }
    ensures shortest { WritesShortest }
    ensures nine { TakesNine }
    ensures found { FindsLeb }
    ensures read { ReadsLebAtFront }
{}

/// If each true id differs from the previous one by less than half the range, the numbers from the `extend` functions differ as the
/// true ids do, modulo 2^64. The same applies to extended picture ids of one width.
pub fn extended_ids_go_along()
    ensures of_7_bits { NumbersGoAlong 128 }
    ensures of_8_bits { NumbersGoAlong 256 }
    ensures of_15_bits { NumbersGoAlong 32768 }
    ensures short_ids { IdsGoAlong 128 Short }
    ensures long_ids { IdsGoAlong 32768 Long }
{}
