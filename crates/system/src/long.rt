// The length of an input that is too long. (The ghost field takes the file's imports, so the type stands apart from what cites it.)
ghost use Rattle.std.specs.Prelude.{◌<◌};
ghost use Rattle.limits.specs.Limits.{longest_file};

// How long an input is that is longer than any file may be.
#[derive(Clone, Copy)]
pub struct TooLong {
    pub length: usize,
    ghost long: { longest_file < length },
}
