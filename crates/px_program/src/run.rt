// A run of the program, from its words to its status.
ghost use Rattle.std.specs.Prelude.{◌≡◌, ◌<◌, ◌≤◌, ◌⊎◌, [], None, Some, map, IsTrue, ℕ, List};
ghost use Rattle.std.specs.String.{string_bytes};
ghost use Rattle.px_outside.specs.Disk.{Image};
ghost use Rattle.px_outside.specs.OnDisk.{IsLeft};
ghost use Rattle.px_opening.specs.Opened.{IsOpenedRight, folder_in};
ghost use Rattle.px_opening.specs.declared.fault.OpenFault.TheVariants as fault;
ghost use Rattle.px_recovery.specs.Base.{IsSoundFolder, base_of};
ghost use Rattle.px_recovery.specs.Stands.{Recovers};
ghost use Rattle.px_rounds.specs.Turns.{TrailGoesOn};
ghost use Rattle.px_rounds.specs.Written.{IsTextWritten};
ghost use Rattle.px_server.specs.Others.{BeginsAt, beginning_at};
ghost use Rattle.px_server.specs.Shown.{known_by};
ghost use Rattle.px_server.specs.Started.{IsOpenedOn, StartsSound};
ghost use Rattle.px_program.specs.Answers.{AnswersJob, IsWithin, printed_for};
ghost use Rattle.px_arguments.specs.Arguments.{Load as Loads, Run, Verify, command_in as command_said, listed_in};
ghost use Rattle.px_program.specs.Run.{FaultsAreTold, IsRun, IsUnrun, run_given, run_left, undamaged};
ghost use Rattle.px_program.specs.Status.{is_memory_status};
ghost use Rattle.px_program.specs.inner.Running.{IsOpenedNow, RanOn, RanOpened, StoodBefore, IsLeftSince, stopped_by};

use crate::causes::{causes_in, status_after};
use crate::job::Job;
use crate::outcome::{Outcome, unrun};
use crate::served::{run_script, run_verified};
use crate::since::{Later, Since};
use crate::status::Status;
use crate::watched::Watched;
use crate::words::{schedule_of, verification};
use px_arguments::{Command, LOOKBACK, command_in, law_spelled};
use px_load::Load;
use px_loaded::run_load;
use px_opening::{OpenFault, Opened, open};
use px_outside::{Clock, CountsCalls, Disk, InputFault, Metered, Sink, Source, read_all};
use px_rounds::Rounds;
use px_seat::Based;
use px_server::{Founded, Server, law_starts};
use px_values::Items;
use px_verified::VerifyKind;
use std::alloc::Global;
use std::marker::Brand;
use std::sync::Wait;
use std::thread::Threads;

/// The greatest length of a script that is read, and one byte more.
const MOST_READ: usize = 67_108_865;

/// The status where the folder wasn't opened, and this call of the disk was the first that failed, 0 where none has.
fn status_unopened(fault: OpenFault, failed: u64) -> Status
    ensures { result ≡ stopped_by fault failed }
{
    if failed != 0 {
        return Status::Device { call: failed };
    }
    match fault {
        OpenFault::ReadFault | OpenFault::WriteFault => Status::Device { call: 0 },
        OpenFault::Damaged { file, place } => Status::Damaged { file, place },
        OpenFault::Memory => Status::Memory,
    }
}

/// The sessions whose steps are next, where they are listed.
fn listed(schedule: &Option<Items<u32>>) -> Option<&[u32]> {
    match schedule {
        Some(list) => Some(list.as_slice()),
        None => None,
    }
}

/// Does a job on a server with which nothing was done, and writes the replies.
fn serve<
    R: Threads + Wait + Sync,
    D: CountsCalls + Send,
    C: Clock + Drop + Send,
    O: Sink,
    B: Based + Founded + Send + Sync,
>(rt: &R, alloc: Global, server: Server<D, C, B>, job: Job, out: &mut O) -> Rounds<Server<D, C, B>>
    requires nothing { server.entries ≡ [] }
    requires within { IsWithin job }
    ensures goes { TrailGoesOn (known_by B.base B.damaged server) (known_by B.base B.damaged result.server) }
    ensures answered { AnswersJob B.sound (known_by B.base B.damaged result.server) 0 job result.transcripts result.sink_failed result.memory }
    ensures written { IsTextWritten ⟦<O as Sink>⟧ out.old out.new (printed_for job result.transcripts) result.sink_failed result.memory }
{
    match job {
        Job::Script { script, schedule } => {
            let list = listed(&schedule);
            let rounds = run_script(rt, alloc, server, script.as_slice(), list, out);
            drop(script);
            drop(schedule);
            rounds
        }
        Job::Verify(asked) => run_verified(rt, alloc, server, asked, out),
        Job::Load(load) => run_load(rt, alloc, server, load, out),
    }
}

/// Does a job over a folder that was opened, and writes the replies. `B` tells the base, whether the folder is sound, the premise, what the
/// clock has to tell, and how long versions are kept.
fn run_over<
    R: Threads + Wait + Sync,
    D: CountsCalls + Send,
    C: Clock + Drop + Send,
    O: Sink,
    B: Based + Founded + Send + Sync,
>(
    rt: &R,
    alloc: Global,
    job: Job,
    disk: D,
    opened: Opened,
    clock: C,
    lookback: u64,
    out: &mut O,
) -> Outcome<D>
    requires within { IsWithin job }
    requires right { IsOpenedRight opened }
    requires base { B.base ≡ base_of (folder_in opened) }
    requires damaged { B.damaged ≡ undamaged }
    requires sound { B.sound → IsSoundFolder (folder_in opened) }
    requires disk { B.premise → IsTrue D.tells → IsOpenedOn ⟦<D as Disk>⟧ disk opened }
    requires told { B.premise → IsTrue D.tells → B.sound }
    requires began { BeginsAt ⟦<D as Disk>⟧ B.began disk }
    requires times { IsTrue C.tells → (n : ℕ) → C.times clock n ≡ B.times n }
    requires lookback { lookback ≡ B.lookback }
    ensures { RanOpened ⟦<D as Disk>⟧ ⟦<C as Clock>⟧ ⟦<O as Sink>⟧ B.base B.sound B.premise B.began (IsLeft ⟦<D as Disk>⟧) B.times B.lookback job disk out.old out.new result }
{
    match Server::<D, C, B>::over(alloc, disk, clock, lookback, opened) {
        Err(disk) => {
            drop(job);
            let status = status_unopened(OpenFault::Memory, disk.first_fault());
            unrun(alloc, disk, status)
        }
        Ok(server) => {
            let Rounds {
                server,
                transcripts,
                sink_failed,
                memory,
            } = serve(rt, alloc, server, job, out);
            let (disk, trail, late) = server.finish();
            let causes = causes_in(transcripts.as_slice());
            let status = status_after(sink_failed, disk.first_fault(), memory, causes);
            Outcome {
                status,
                disk,
                trail,
                late,
                transcripts,
                memory,
            }
        }
    }
}

/// The same on a disk of which stops are told from the opening's end on, and earlier ones where the folder stood for what was opened before.
fn run_since<
    R: Threads + Wait + Sync,
    D: CountsCalls + Send,
    C: Clock + Drop + Send,
    O: Sink,
    B: Based + Founded + Since + Send + Sync,
>(
    rt: &R,
    alloc: Global,
    job: Job,
    disk: D,
    opened: Opened,
    clock: C,
    lookback: u64,
    out: &mut O,
) -> Outcome<D>
    requires within { IsWithin job }
    requires right { IsOpenedRight opened }
    requires base { B.base ≡ base_of (folder_in opened) }
    requires damaged { B.damaged ≡ undamaged }
    requires sound { B.sound → IsSoundFolder (folder_in opened) }
    requires opened { B.premise → IsTrue D.tells → IsOpenedNow ⟦<D as Disk>⟧ disk opened }
    requires told { B.premise → IsTrue D.tells → B.sound }
    requires began { BeginsAt ⟦<D as Disk>⟧ B.began disk }
    requires from { B.from ≡ D.calls disk }
    requires all { B.all → StoodBefore ⟦<D as Disk>⟧ disk opened }
    requires was { (moment : ℕ) → (file : ℕ) → (bytes : List ℕ) → moment < B.from → D.left disk moment file bytes → B.was moment file bytes }
    requires times { IsTrue C.tells → (n : ℕ) → C.times clock n ≡ B.times n }
    requires lookback { lookback ≡ B.lookback }
    ensures ran { RanOpened ⟦<D as Disk>⟧ ⟦<C as Clock>⟧ ⟦<O as Sink>⟧ B.base B.sound B.premise B.began (IsLeftSince ⟦<D as Disk>⟧ B.from B.all) B.times B.lookback job disk out.old out.new result }
    ensures begun { B.from ≤ D.calls result.disk }
    ensures past { (moment : ℕ) → (file : ℕ) → (bytes : List ℕ) → moment < B.from → D.left result.disk moment file bytes → B.was moment file bytes }
{
    let later = Later::<D, B>::new(disk);
    run_over::<R, Later<D, B>, C, O, B>(
        rt, alloc, job, later, opened, clock, lookback, out,
    ).map_disk(Later::<D, B>::into_disk)
}

/// Does a job over a folder that was opened.
fn run_opened<R: Threads + Wait + Sync, D: CountsCalls + Send, C: Clock + Drop + Send, O: Sink>(
    rt: &R,
    alloc: Global,
    job: Job,
    disk: D,
    opened: Opened,
    clock: C,
    lookback: u64,
    out: &mut O,
) -> Outcome<D>
    requires within { IsWithin job }
    requires right { IsOpenedRight opened }
    ensures ran { RanOpened ⟦<D as Disk>⟧ ⟦<C as Clock>⟧ ⟦<O as Sink>⟧ (base_of (folder_in opened)) (IsSoundFolder (folder_in opened)) (IsTrue D.tells → IsOpenedNow ⟦<D as Disk>⟧ disk opened) (beginning_at ⟦<D as Disk>⟧ disk) (IsLeftSince ⟦<D as Disk>⟧ (D.calls disk) (StoodBefore ⟦<D as Disk>⟧ disk opened)) (C.times clock) lookback job disk out.old out.new result }
    ensures begun { D.calls disk ≤ D.calls result.disk }
    ensures past { (moment : ℕ) → (file : ℕ) → (bytes : List ℕ) → moment < D.calls disk → D.left result.disk moment file bytes → D.left disk moment file bytes }
{
    run_since::<R, D, C, O, Brand>(rt, alloc, job, disk, opened, clock, lookback, out)
}

/// Opens the folder, and does a job on its tables.
fn run_on<R: Threads + Wait + Sync, D: CountsCalls + Send, C: Clock + Drop + Send, O: Sink>(
    rt: &R,
    alloc: Global,
    job: Job,
    mut disk: D,
    clock: C,
    lookback: u64,
    out: &mut O,
) -> Outcome<D>
    requires { IsWithin job }
    ensures { RanOn ⟦<D as Disk>⟧ ⟦<C as Clock>⟧ ⟦<O as Sink>⟧ lookback job clock disk out.old out.new result }
{
    law_starts::<D>();
    match open(alloc, &mut disk) {
        Err(fault) => {
            drop(job);
            let status = status_unopened(fault, disk.first_fault());
            unrun(alloc, disk, status)
        }
        Ok(opened) => run_opened(rt, alloc, job, disk, opened, clock, lookback, out),
    }
}

/// Does a job on the tables of the folder that the disk holds. Its calls are counted.
fn run_folder<R: Threads + Wait + Sync, D: Disk + Send, C: Clock + Drop + Send, O: Sink>(
    rt: &R,
    alloc: Global,
    job: Job,
    disk: D,
    clock: C,
    lookback: u64,
    out: &mut O,
) -> Outcome<D>
    requires fresh { (D.calls disk ≡ 0) × (D.faults disk ≡ 0) × (D.first_fault disk ≡ 0) }
    requires within { IsWithin job }
    ensures run { RanOn ⟦<D as Disk>⟧ ⟦<C as Clock>⟧ ⟦<O as Sink>⟧ lookback job clock disk out.old out.new result }
    ensures known { 0 < D.faults result.disk → 0 < D.first_fault result.disk }
    ensures failed { 0 < D.first_fault result.disk → 0 < D.faults result.disk }
{
    let counted = Metered::new(Watched::new(disk));
    run_on(rt, alloc, job, counted, clock, lookback, out)
        .map_disk(Metered::<Watched<D>>::into_disk)
        .map_disk(Watched::<D>::into_disk)
}

/// What a run leaves that made no call of the disk.
fn untouched<D: Disk>(alloc: Global, disk: D, status: Status) -> Outcome<D>
    ensures status { result.status ≡ status }
    ensures disk { result.disk ≡ disk }
    ensures entries { result.trail.entries ≡ [] }
    ensures late { result.late ≡ None }
    ensures transcripts { result.transcripts ≡ [] }
    ensures memory { result.memory ≡ is_memory_status status }
    ensures recovers { (starts : StartsSound ⟦<D as Disk>⟧ disk) → (moment : ℕ) → (image : Image) → IsLeft ⟦<D as Disk>⟧ disk moment image → Recovers (base_of starts.sound.folder) [] None moment image }
{
    law_starts::<D>();
    unrun(alloc, disk, status)
}

/// Reads a script from the input, and runs its sessions, by the schedule where there is one.
fn run_input<R: Threads + Wait + Sync, D: Disk + Send, C: Clock + Drop + Send, I: Source, O: Sink>(
    rt: &R,
    alloc: Global,
    words: &[String],
    disk: D,
    clock: C,
    lookback: u64,
    schedule: Option<Items<u32>>,
    input: &mut I,
    out: &mut O,
) -> Outcome<D>
    requires fresh { (D.calls disk ≡ 0) × (D.faults disk ≡ 0) × (D.first_fault disk ≡ 0) }
    requires named { (folder : List ℕ) × (command_said (map string_bytes words.now) ≡ Some (Run folder lookback schedule)) }
    ensures run { IsUnrun ⟦<D as Disk>⟧ ⟦<I as Source>⟧ (run_given disk clock input.old out.old (map string_bytes words.now)) (run_left result input.new out.new)
        ⊎ IsRun ⟦<D as Disk>⟧ ⟦<C as Clock>⟧ ⟦<I as Source>⟧ ⟦<O as Sink>⟧ (run_given disk clock input.old out.old (map string_bytes words.now)) (run_left result input.new out.new) }
    ensures faults_are_told { FaultsAreTold ⟦<D as Disk>⟧ disk result.disk result.status }
{
    match read_all(alloc, input, MOST_READ) {
        Ok(script) => {
            let script = Items::of(script);
            let job = Job::Script { script, schedule };
            run_folder(rt, alloc, job, disk, clock, lookback, out)
        }
        Err(InputFault::ReadFault) => {
            drop(schedule);
            untouched(alloc, disk, Status::SourceFault)
        }
        Err(InputFault::Memory) => {
            drop(schedule);
            untouched(alloc, disk, Status::Memory)
        }
    }
}

/// The same, where the schedule is as it was written.
fn run_listed<R: Threads + Wait + Sync, D: Disk + Send, C: Clock + Drop + Send, I: Source, O: Sink>(
    rt: &R,
    alloc: Global,
    words: &[String],
    disk: D,
    clock: C,
    lookback: u64,
    list: Option<&str>,
    input: &mut I,
    out: &mut O,
) -> Outcome<D>
    requires fresh { (D.calls disk ≡ 0) × (D.faults disk ≡ 0) × (D.first_fault disk ≡ 0) }
    requires named { (folder : List ℕ) × (command_said (map string_bytes words.now) ≡ Some (Run folder lookback (listed_in list))) }
    ensures run { IsUnrun ⟦<D as Disk>⟧ ⟦<I as Source>⟧ (run_given disk clock input.old out.old (map string_bytes words.now)) (run_left result input.new out.new)
        ⊎ IsRun ⟦<D as Disk>⟧ ⟦<C as Clock>⟧ ⟦<I as Source>⟧ ⟦<O as Sink>⟧ (run_given disk clock input.old out.old (map string_bytes words.now)) (run_left result input.new out.new) }
    ensures faults_are_told { FaultsAreTold ⟦<D as Disk>⟧ disk result.disk result.status }
{
    match schedule_of(alloc, list) {
        Ok(schedule) => run_input(
            rt, alloc, words, disk, clock, lookback, schedule, input, out,
        ),
        Err(_) => untouched(alloc, disk, Status::Memory),
    }
}

/// Verifies an index. No input is read.
fn run_verification<
    R: Threads + Wait + Sync,
    D: Disk + Send,
    C: Clock + Drop + Send,
    I: Source,
    O: Sink,
>(
    rt: &R,
    alloc: Global,
    words: &[String],
    table: &str,
    index: &str,
    kind: VerifyKind,
    disk: D,
    clock: C,
    input: &mut I,
    out: &mut O,
) -> Outcome<D>
    requires fresh { (D.calls disk ≡ 0) × (D.faults disk ≡ 0) × (D.first_fault disk ≡ 0) }
    requires named { (folder : List ℕ) × (command_said (map string_bytes words.now) ≡ Some (Verify folder table.now index.now kind)) }
    ensures run { IsUnrun ⟦<D as Disk>⟧ ⟦<I as Source>⟧ (run_given disk clock input.old out.old (map string_bytes words.now)) (run_left result input.new out.new)
        ⊎ IsRun ⟦<D as Disk>⟧ ⟦<C as Clock>⟧ ⟦<I as Source>⟧ ⟦<O as Sink>⟧ (run_given disk clock input.old out.old (map string_bytes words.now)) (run_left result input.new out.new) }
    ensures faults_are_told { FaultsAreTold ⟦<D as Disk>⟧ disk result.disk result.status }
{
    match verification(alloc, table, index, kind) {
        Ok(asked) => run_folder(rt, alloc, Job::Verify(asked), disk, clock, LOOKBACK, out),
        Err(_) => untouched(alloc, disk, Status::Memory),
    }
}

/// Puts the rows of a load into a table of its own, and asks for them. No input is read.
fn run_loading<
    R: Threads + Wait + Sync,
    D: Disk + Send,
    C: Clock + Drop + Send,
    I: Source,
    O: Sink,
>(
    rt: &R,
    alloc: Global,
    words: &[String],
    load: Load,
    disk: D,
    clock: C,
    input: &mut I,
    out: &mut O,
) -> Outcome<D>
    requires fresh { (D.calls disk ≡ 0) × (D.faults disk ≡ 0) × (D.first_fault disk ≡ 0) }
    requires named { (folder : List ℕ) × (command_said (map string_bytes words.now) ≡ Some (Loads folder load)) }
    ensures run { IsUnrun ⟦<D as Disk>⟧ ⟦<I as Source>⟧ (run_given disk clock input.old out.old (map string_bytes words.now)) (run_left result input.new out.new)
        ⊎ IsRun ⟦<D as Disk>⟧ ⟦<C as Clock>⟧ ⟦<I as Source>⟧ ⟦<O as Sink>⟧ (run_given disk clock input.old out.old (map string_bytes words.now)) (run_left result input.new out.new) }
    ensures faults_are_told { FaultsAreTold ⟦<D as Disk>⟧ disk result.disk result.status }
{
    law_spelled();
    run_folder(rt, alloc, Job::Load(load), disk, clock, LOOKBACK, out)
}

/// Runs the program: reads a script from the input and runs its sessions on the tables in the folder that the disk holds, or verifies an
/// index of one, or loads rows into a table, as the words say, and writes the replies or what is told of the load. The words are those after
/// the program's name. The disk had no call yet.
pub fn phoenix<
    R: Threads + Wait + Sync,
    D: Disk + Send,
    C: Clock + Drop + Send,
    I: Source,
    O: Sink,
>(
    rt: &R,
    alloc: Global,
    words: &[String],
    disk: D,
    clock: C,
    input: &mut I,
    out: &mut O,
) -> Outcome<D>
    requires fresh { (D.calls disk ≡ 0) × (D.faults disk ≡ 0) × (D.first_fault disk ≡ 0) }
    ensures run { IsUnrun ⟦<D as Disk>⟧ ⟦<I as Source>⟧ (run_given disk clock input.old out.old (map string_bytes words.now)) (run_left result input.new out.new)
        ⊎ IsRun ⟦<D as Disk>⟧ ⟦<C as Clock>⟧ ⟦<I as Source>⟧ ⟦<O as Sink>⟧ (run_given disk clock input.old out.old (map string_bytes words.now)) (run_left result input.new out.new) }
    ensures faults_are_told { FaultsAreTold ⟦<D as Disk>⟧ disk result.disk result.status }
{
    match command_in(words) {
        None => untouched(alloc, disk, Status::BadWords),
        Some(
            Command::Run {
                folder: _folder,
                lookback,
                schedule: list,
            },
        ) => run_listed(rt, alloc, words, disk, clock, lookback, list, input, out),
        Some(
            Command::Verify {
                folder: _folder,
                table,
                index,
                kind,
            },
        ) => run_verification(
            rt, alloc, words, table, index, kind, disk, clock, input, out,
        ),
        Some(
            Command::Load {
                folder: _folder,
                load,
            },
        ) => run_loading(rt, alloc, words, load, disk, clock, input, out),
    }
}
