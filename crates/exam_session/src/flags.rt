//! A flag for each of eight bands, in one byte.

ghost use Rattle.std.specs.Prelude.{◌≡◌, ◌<◌, ◌==◌};
ghost use Rattle.std.specs.Int.{bit_at};
ghost use Rattle.history_model.specs.Laws.{raised};
ghost use Rattle.exam_session.specs.Flags.{flags_of};

/// Whether the flag of a band is raised.
pub(crate) fn has_flag(flags: u8, band: u8) -> bool
    requires { band < 8 }
    ensures { result ≡ (bit_at flags band == 1) }
{
    flags >> band & 1 == 1
}

/// The flags with that of a band raised.
pub(crate) fn with_flag(flags: u8, band: u8) -> u8
    requires { band < 8 }
    ensures { flags_of result ≡ raised (flags_of flags) band }
{
    flags | 1 << band
}

/// The flags of the eight bands.
pub(crate) fn all_flags(flags: u8) -> [bool; 8]
    ensures { result ≡ flags_of flags }
{
    [
        has_flag(flags, 0),
        has_flag(flags, 1),
        has_flag(flags, 2),
        has_flag(flags, 3),
        has_flag(flags, 4),
        has_flag(flags, 5),
        has_flag(flags, 6),
        has_flag(flags, 7),
    ]
}
