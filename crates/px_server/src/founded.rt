// What a server's run begins with.
ghost use Rattle.std.specs.Prelude.{ℕ, []};
ghost use Rattle.px_server.specs.Others.{Beginning};

use std::marker::Brand;

/// That what was opened is sound, what the disk's promise rests on, what the clock has to tell, and how long versions are kept. Each call of a
/// program picks them, beside `Based`.
pub trait Founded {
    /// What was opened is sound.
    ghost sound: { Type 0 };

    /// No call was made, nothing is pending, and the first image is sound: of other disks nothing is promised.
    ghost premise: { Type 0 };

    /// What the disk was when the run began.
    ghost began: { Beginning };

    /// The numbers that the clock would tell from the beginning on.
    ghost times: { ℕ → ℕ };

    /// How long versions are kept.
    ghost lookback: { ℕ };
}

impl Founded for Brand {
    ghost sound = { Unit {0} };

    ghost premise = { Unit {0} };

    ghost began = { record { moment = 0; left = λ file bytes. Unit {0}; seen = λ file. [] } };

    ghost times = { λ n. 0 };

    ghost lookback = { 0 };
}
