// What is left out of the language, by the name that a refusal gives it.
ghost use Rattle.std.specs.Prelude.{◌≡◌, map};
ghost use Rattle.px_parse.specs.LeftOut as spec;

use px_lex::kind::{Kind, same_kind};

/// The tokens that are left out, each with its name.
const LEFT_OUT: [(Kind, &str); 49] = [
    (Kind::Array, "ARRAY"),
    (Kind::As, "AS"),
    (Kind::Avg, "AVG"),
    (Kind::Binary, "BINARY"),
    (Kind::Cascade, "CASCADE"),
    (Kind::Case, "CASE"),
    (Kind::Cast, "CAST"),
    (Kind::Char, "CHAR"),
    (Kind::Count, "COUNT"),
    (Kind::Date, "DATE"),
    (Kind::Decimal, "DECIMAL"),
    (Kind::Default, "DEFAULT"),
    (Kind::Distinct, "DISTINCT"),
    (Kind::Double, "DOUBLE"),
    (Kind::Duplicate, "DUPLICATE"),
    (Kind::Fetch, "FETCH"),
    (Kind::Float, "FLOAT"),
    (Kind::Function, "FUNCTION"),
    (Kind::Group, "GROUP"),
    (Kind::Having, "HAVING"),
    (Kind::Inner, "INNER"),
    (Kind::Join, "JOIN"),
    (Kind::Left, "LEFT"),
    (Kind::Like, "LIKE"),
    (Kind::Local, "LOCAL"),
    (Kind::Max, "MAX"),
    (Kind::Min, "MIN"),
    (Kind::Offset, "OFFSET"),
    (Kind::Outer, "OUTER"),
    (Kind::Right, "RIGHT"),
    (Kind::SaltBuckets, "SALT_BUCKETS"),
    (Kind::Schema, "SCHEMA"),
    (Kind::Select, "SELECT"),
    (Kind::Sequence, "SEQUENCE"),
    (Kind::Statistics, "STATISTICS"),
    (Kind::Sum, "SUM"),
    (Kind::Time, "TIME"),
    (Kind::Timestamp, "TIMESTAMP"),
    (Kind::Ttl, "TTL"),
    (Kind::Uncovered, "UNCOVERED"),
    (Kind::Union, "UNION"),
    (Kind::Varbinary, "VARBINARY"),
    (Kind::View, "VIEW"),
    (Kind::Dot, "."),
    (Kind::Question, "?"),
    (Kind::Plus, "+"),
    (Kind::Minus, "-"),
    (Kind::Star, "*"),
    (Kind::Slash, "/"),
];

fn lookup(mut table: &'static [(Kind, &'static str)], kind: Kind) -> Option<&'static str>
    ensures { spec.Names result (spec.name_beside (map (λ x. (x.0, x.1.now)) table.entry.now) kind) }
{
    while let [entry, rest @ ..] = table {
        if same_kind(kind, entry.0) {
            return Some(entry.1);
        }
        table = rest;
    }
    None
}

/// The name of a token that is left out, by its kind.
pub fn left_out(kind: Kind) -> Option<&'static str>
    ensures { spec.Names result (spec.name_beside spec.left_out kind) }
{
    lookup(&LEFT_OUT, kind)
}
