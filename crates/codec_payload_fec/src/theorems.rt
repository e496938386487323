//! Theorems about FEC. These functions exist for what they prove; they do nothing.

ghost use Rattle.codec_payload_fec.specs.FecReading.{FecComesBack, ReadIsSpelled};
ghost use Rattle.codec_payload_fec.specs.Protecting.{RebuildsPackets, RebuildsTheMissing, TwoRebuildNothing};
ghost use Rattle.codec_payload_fec.specs.Strings.{XorAssociates, XorCommutes, XorUndoesItself};
ghost use Rattle.codec_payload_fec.specs.Writing.{RebuiltIsSent};

/// Proves that a packet of FEC is read again from its bytes, exactly as it was.
pub fn fec_comes_back()
    ensures { FecComesBack }
{}

/// Proves that bytes that are read as a packet of FEC are its spelling.
pub fn read_is_spelled()
    ensures { ReadIsSpelled }
{}

/// Proves that the order of two byte strings is free in their exclusive or.
pub fn xor_commutes()
    ensures { XorCommutes }
{}

/// Proves that the grouping of three byte strings is free in their exclusive or.
pub fn xor_associates()
    ensures { XorAssociates }
{}

/// Proves that the exclusive or of a byte string with itself has only zeros.
pub fn xor_undoes_itself()
    ensures { XorUndoesItself }
{}

/// Proves that a packet of FEC rebuilds packets that it was made from, byte for byte, and no other ones, whatever was lost.
pub fn rebuilds_packets()
    ensures { RebuildsPackets }
{}

/// Proves that a packet of FEC rebuilds the only packet that is missing.
pub fn rebuilds_the_missing()
    ensures { RebuildsTheMissing }
{}

/// Proves that a packet of FEC of which two or more packets are missing rebuilds nothing.
pub fn two_rebuild_nothing()
    ensures { TwoRebuildNothing }
{}

/// Proves that what packets of FEC of [`FecWriter`](crate::writing::FecWriter) rebuild are packets that were sent, byte for byte, for any
/// packets of a stream, any protection, and whatever packets were lost.
pub fn rebuilt_is_sent()
    ensures { RebuiltIsSent }
{}
