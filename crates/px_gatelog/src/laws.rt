// The law of the records of a segment as bytes, over every form and every bytes.
ghost use Rattle.std.specs.Prelude.{◌≡◌, ◌<◌, ℕ, List, Result};
ghost use Rattle.std.specs.List.{AllByRecursion};
ghost use Rattle.px_gatelog.specs.Format.{LogForm, LogRecord, records_at};
ghost use Rattle.px_gatelog.specs.Reading.{IsRecordReading};

/// Bytes have one reading behind other records: they are one list of records, or have one first wrong place, and not
/// both. It is the one that the format reads.
pub fn one_reading()
    ensures one { (form : LogForm) (before : List LogRecord) (at : ℕ) (bytes : List ℕ) (a b : Result (List LogRecord) ℕ) → IsRecordReading form before at bytes a → IsRecordReading form before at bytes b → a ≡ b }
    ensures read { (form : LogForm) (before : List LogRecord) (at : ℕ) (bytes : List ℕ) → AllByRecursion (λ b. b < 256) bytes → IsRecordReading form before at bytes (records_at form before at 0 bytes) }
{}
