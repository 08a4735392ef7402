//! The laws of what a scan gathers.
ghost use Rattle.std.specs.Prelude.{◌≡◌, ◌<◌, ◌≤◌, ◌++◌, ◌∷◌, [], ℕ, Bool, true, false, List, Option, None, Some, length};
ghost use Rattle.px_tables.specs.declared.found.Found.{Found as FoundTable};
ghost use Rattle.px_trail.specs.declared.entry.Entry.{Entry as Entries};
ghost use Rattle.px_trail.specs.Answers.{Given};
ghost use Rattle.px_trail.specs.Legal.{IsLegal};
ghost use Rattle.px_trail.specs.Trail.{Base, catalogue_of, last_of};
ghost use Rattle.px_calls.specs.declared.query.By.{By as Bys};
ghost use Rattle.px_calls.specs.declared.query.Chunk.{Chunk as Chunks};
ghost use Rattle.px_calls.specs.declared.query.Doubt.{Doubt as Doubts};
ghost use Rattle.px_calls.specs.declared.query.FoundKey.{FoundKey as FoundKeys};
ghost use Rattle.px_calls.specs.declared.query.FoundKey.TheVariants.{Sure, InDoubt};
ghost use Rattle.px_calls.specs.declared.query.FoundRow.{FoundRow as FoundRows};
ghost use Rattle.px_calls.specs.declared.query.Held.{Held as Helds};
ghost use Rattle.px_calls.specs.Known.{Known};
ghost use Rattle.px_calls.specs.Calls.{Consulted};
ghost use Rattle.px_calls.specs.Looks.{Shows, ShowsRows, is_covered};
ghost use Rattle.px_gather.specs.Answers.{IsAnswerBy, IsExactOf, IsPointOfQuery};
ghost use Rattle.px_gather.specs.Gathered.{Ended, Frame, Gathered, Pending, is_full, kept, kept_held, opened_at, up_to};
ghost use Rattle.px_gather.specs.Query.{IsPathFor, Query};

/// What is gathered goes on with each look, each sure key and each doubt that was consulted, and stays while the trail grows. It is whole at the end
/// of the path, and where LIMIT rows are found.
pub fn law_gathers()
    ensures none { (f : Frame) → (es : List Entries) → Gathered f es (up_to None) [] }
    ensures looks { (f : Frame) → (k : Known) → (k' : Known) → (after : Option (List ℕ)) → (c : Chunks) → (more : List Entries) → (rows : List Given) → f.base ≡ k'.base → k'.seen ≡ k.seen ++ more → opened_at f ≤ length k.seen → IsPathFor f.query f.point f.path → Gathered f k.seen (up_to after) rows → Shows f.point f.path after c.found c.next → ShowsRows k'.base k'.seen f.point f.path after c.found c.next → c.at ≡ length k'.seen → Pending f k'.seen c.at c.found c.next rows }
    ensures sure { (f : Frame) → (es : List Entries) → (n : ℕ) → (x : FoundRows) → (fs : List FoundKeys) → (next : Option (List ℕ)) → (rows : List Given) → IsPathFor f.query f.point f.path → is_full f.query.limit (length rows) ≡ false → Pending f es n (Sure x ∷ fs) next rows → Pending f es n fs next (rows ++ kept f.query x.row n) }
    ensures doubt { (f : Frame) → (k : Known) → (n : ℕ) → (d : Doubts) → (fs : List FoundKeys) → (next : Option (List ℕ)) → (rows : List Given) → (held : Option Helds) → f.base ≡ k.base → is_full f.query.limit (length rows) ≡ false → Pending f k.seen n (InDoubt d ∷ fs) next rows → Consulted k f.point d held → Pending f k.seen n fs next (rows ++ kept_held f.query held) }
    ensures grows { (f : Frame) → (es : List Entries) → (more : List Entries) → (n : ℕ) → (fs : List FoundKeys) → (next : Option (List ℕ)) → (rows : List Given) → Pending f es n fs next rows → Pending f (es ++ more) n fs next rows }
    ensures chunk { (f : Frame) → (es : List Entries) → (n : ℕ) → (next : Option (List ℕ)) → (rows : List Given) → Pending f es n [] next rows → Gathered f es (is_covered next) rows }
    ensures all { (f : Frame) → (es : List Entries) → (rows : List Given) → Gathered f es (is_covered None) rows → Ended f es rows }
    ensures full { (f : Frame) → (es : List Entries) → (n : ℕ) → (fs : List FoundKeys) → (next : Option (List ℕ)) → (rows : List Given) → Pending f es n fs next rows → is_full f.query.limit (length rows) ≡ true → Ended f es rows }
{}

/// What is gathered to its end is the answer: a current one, or under an SCN exactly the rows at the point, which it stays in whatever legal trail
/// comes.
pub fn law_answers()
    ensures ended { (f : Frame) → (es : List Entries) → (scn : Option ℕ) → (first : ℕ) → (last : ℕ) → (rows : List Given) → IsPointOfQuery f.base es f.query scn f.point → IsLegal f.base es → Ended f es rows → first ≡ opened_at f → last ≡ length es → IsAnswerBy f.base es f.query scn f.point.found f.path.by first last rows }
    ensures stays { (b : Base) → (es : List Entries) → (more : List Entries) → (q : Query) → (found : FoundTable) → (by : Bys) → (p : ℕ) → (rows : List Given) → IsLegal b (es ++ more) → p ≤ last_of b q.table es → q.table < (catalogue_of b es).next → IsExactOf b es q found by p rows → IsExactOf b (es ++ more) q found by p rows }
{}
