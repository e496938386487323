//! A theorem about numbers. This function exists for what it proves; it does nothing.

ghost use Rattle.codec_payload_numbers.specs.Numbers.{AreTrueNumbers, NoneRestarts, NeverMix, AreTrueAnew, NeverMixAnew, AreTrueBegun};

/// Proves that extended numbers are true numbers. If each true number lies within the windows of the highest one so far, each
/// packet gets its true number plus one constant, and no restart is reported. After a restart the same applies with another
/// constant, and each number is above all earlier ones. The theorem covers announced restarts, and packets that were sent
/// before the first one that arrives.
pub fn numbers_are_true()
    ensures numbers { AreTrueNumbers }
    ensures goes_on { NoneRestarts }
    ensures above { NeverMix }
    ensures is_restarting { AreTrueAnew }
    ensures above_announced { NeverMixAnew }
    ensures announced { AreTrueBegun }
{}
