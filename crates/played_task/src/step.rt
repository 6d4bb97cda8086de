//! The task of a step.
ghost use Rattle.std.specs.Prelude.{◌≡◌, ◌∷◌, [], None, IfOk, OnErr, OnOk, find, true, codes, if◌then◌else◌};
ghost use Rattle.net_base.specs.Paths as paths;
ghost use Rattle.net_base.specs.Exports as exports;
ghost use Rattle.net_base.specs.Steps as steps;
ghost use Rattle.net_base.specs.Steps.{Names as AnyNames};
ghost use Rattle.net_base.specs.declared.names.Mode.TheVariants as mode;
ghost use Rattle.net_base.specs.declared.world.Step.TheVariants as step;
ghost use Rattle.net_base.specs.declared.left.Left.{Left as AnyLeft};
ghost use Rattle.net_base.specs.Remotes.{is_remote};
ghost use Rattle.net_base.specs.Scripts.{new_names};
ghost use Rattle.net_import.specs.Ropening as ropening;
ghost use Rattle.net_base.specs.declared.request.Request.TheVariants as request;
ghost use Rattle.played_task.specs.declared.step.StepTask.TheVariants as t;
ghost use Rattle.played_task.specs.StepTasks as spec;

use dial_lib::{Announce, Beside, Dial, Dns, Hread, Hwrite, OneRequest, Reject, WriteText};
use net_base::{FileName, Left, Mode, Node, Octets, Reply, Step};
use net_export::Export;
use net_import::{Errand, Import, Rclose, Ropen, is_remote};
use net_tree::walk;
use script_task::{Names, Request, Task, is_granted};
use std::alloc::{AllocError, Global};
use world_words::is_remote_path;

/// No text that is written to a remote file is longer.
const LONGEST_TEXT: usize = 488;

/// A step that is being played.
#[derive(Drop)]
pub enum StepTask {
    /// `open`, `read`, `close`, `ls`, `cs` and `until`
    OneRequest(OneRequest),
    /// `write`, `writex` and `hangup`
    WriteText(WriteText),
    Dial(Dial),
    Announce(Announce),
    /// `listen` and `accept`
    Beside(Beside),
    Reject(Reject),
    Hread(Hread),
    Hwrite(Hwrite),
    Dns(Dns),
    // imports
    Export(Export),
    Import(Import),
    Ropen(Ropen),
    Rread(Errand),
    Rwrite(Errand),
    Rclose(Rclose),
}

impl StepTask {
    /// The task of a step, which has recorded nothing yet, where this is left by earlier steps.
    #[tactic(auto, using(crate::specs::StepLaws::begun_stands))]
    pub fn new(alloc: Global, step: &Step, left: &Left) -> Result<StepTask, AllocError>
        ensures value { IfOk result (λ t. t ≡ spec.begun left.now step.now) }
        ensures stands { IfOk result (λ t. spec.Begins t left.now step.now) }
    {
        match taken_name(alloc, step, left)? {
            Some(name) => Ok(once(Request::Unbound { name })),
            None => begin(alloc, step, left),
        }
    }

    /// Takes the reply to the event of its request. Where it is through then, it leaves what later steps find. Without memory
    /// both are as before.
    #[tactic(auto, using(crate::specs::StepLaws::leaves_nothing))]
    pub fn hear(&mut self, alloc: Global, reply: Reply, left: &mut Left) -> Result<(), AllocError>
        ensures task { OnOk result (self.new ≡ spec.after self.old reply) }
        ensures left { OnOk result (left.new ≡ spec.left_by (spec.after self.old reply) left.old) }
        ensures err { OnErr result ((self.new ≡ self.old) × (left.new ≡ left.old)) }
    {
        match self {
            StepTask::Ropen(task) => hear_ropen(task, alloc, reply, left),
            StepTask::Rclose(task) => {
                task.told(alloc, reply)?;
                if task.is_through() {
                    task.leave(left);
                }
                Ok(())
            }
            _ => self.told(alloc, reply),
        }
    }
}

impl Task for StepTask {
    ghost use Rattle.played_task.specs.StepLaws as laws;

    ghost asks = { spec.asks };

    ghost after = { spec.after };

    ghost Stands = { spec.StandsFor };

    ghost asks_so = { laws.asks_so };

    ghost moves_so = { laws.moves_so };

    fn next(&self, alloc: Global, fids: &Names) -> Result<Option<Request>, AllocError> {
        match self {
            StepTask::OneRequest(task) => task.next(alloc, fids),
            StepTask::WriteText(task) => task.next(alloc, fids),
            StepTask::Dial(task) => task.next(alloc, fids),
            StepTask::Announce(task) => task.next(alloc, fids),
            StepTask::Beside(task) => task.next(alloc, fids),
            StepTask::Reject(task) => task.next(alloc, fids),
            StepTask::Hread(task) => task.next(alloc, fids),
            StepTask::Hwrite(task) => task.next(alloc, fids),
            StepTask::Dns(task) => task.next(alloc, fids),
            StepTask::Export(task) => task.next(alloc, fids),
            StepTask::Import(task) => task.next(alloc, fids),
            StepTask::Ropen(task) => task.next(alloc, fids),
            StepTask::Rread(task) => task.next(alloc, fids),
            StepTask::Rwrite(task) => task.next(alloc, fids),
            StepTask::Rclose(task) => task.next(alloc, fids),
        }
    }

    fn is_through(&self) -> bool {
        match self {
            StepTask::OneRequest(task) => task.is_through(),
            StepTask::WriteText(task) => task.is_through(),
            StepTask::Dial(task) => task.is_through(),
            StepTask::Announce(task) => task.is_through(),
            StepTask::Beside(task) => task.is_through(),
            StepTask::Reject(task) => task.is_through(),
            StepTask::Hread(task) => task.is_through(),
            StepTask::Hwrite(task) => task.is_through(),
            StepTask::Dns(task) => task.is_through(),
            StepTask::Export(task) => task.is_through(),
            StepTask::Import(task) => task.is_through(),
            StepTask::Ropen(task) => task.is_through(),
            StepTask::Rread(task) => task.is_through(),
            StepTask::Rwrite(task) => task.is_through(),
            StepTask::Rclose(task) => task.is_through(),
        }
    }

    fn told(&mut self, alloc: Global, reply: Reply) -> Result<(), AllocError> {
        match self {
            StepTask::OneRequest(task) => task.told(alloc, reply),
            StepTask::WriteText(task) => task.told(alloc, reply),
            StepTask::Dial(task) => task.told(alloc, reply),
            StepTask::Announce(task) => task.told(alloc, reply),
            StepTask::Beside(task) => task.told(alloc, reply),
            StepTask::Reject(task) => task.told(alloc, reply),
            StepTask::Hread(task) => task.told(alloc, reply),
            StepTask::Hwrite(task) => task.told(alloc, reply),
            StepTask::Dns(task) => task.told(alloc, reply),
            StepTask::Export(task) => task.told(alloc, reply),
            StepTask::Import(task) => task.told(alloc, reply),
            StepTask::Ropen(task) => task.told(alloc, reply),
            StepTask::Rread(task) => task.told(alloc, reply),
            StepTask::Rwrite(task) => task.told(alloc, reply),
            StepTask::Rclose(task) => task.told(alloc, reply),
        }
    }
}

// A file is opened over a call. What the task leaves may want memory, so a copy of it is told the reply.
fn hear_ropen(
    task: &mut Ropen,
    alloc: Global,
    reply: Reply,
    left: &mut Left,
) -> Result<(), AllocError>
    ensures task { OnOk result (task.new ≡ ropening.after task.old reply) }
    ensures left { OnOk result (left.new ≡ spec.left_by (t.Ropen (ropening.after task.old reply)) left.old) }
    ensures err { OnErr result ((task.new ≡ task.old) × (left.new ≡ left.old)) }
{
    let mut later = task.clone()?;
    later.told(alloc, reply)?;
    leave_ropen(&later, left)?;
    *task = later;
    Ok(())
}

// What it leaves once it is through.
fn leave_ropen(task: &Ropen, left: &mut Left) -> Result<(), AllocError>
    ensures ok { OnOk result (left.new ≡ spec.left_by (t.Ropen task.now) left.old) }
    ensures err { OnErr result (left.new ≡ left.old) }
{
    if task.is_through() {
        return task.leave(left);
    }
    Ok(())
}

// The first of a step's new names that a remote file has.
fn taken_name(alloc: Global, step: &Step, left: &Left) -> Result<Option<Octets>, AllocError>
    ensures { IfOk result (λ name. name ≡ find (is_remote left.now) (new_names step.now)) }
{
    match step {
        Step::Open { name, .. } => taken(name, left),
        Step::Dial { name, .. } => taken_by_dial(alloc, name, left),
        Step::Announce { name, .. } => taken(name, left),
        Step::Listen { name, .. } => taken(name, left),
        Step::Accept { name, .. } => taken(name, left),
        Step::Ropen { name, .. } => taken(name, left),
        _ => Ok(None),
    }
}

// The name, where a remote file has it.
fn taken(name: &Octets, left: &Left) -> Result<Option<Octets>, AllocError>
    ensures { IfOk result (λ taken. taken ≡ find (is_remote left.now) (name.now ∷ [])) }
{
    if is_remote(left, name.as_slice()) {
        Ok(Some(name.clone()?))
    } else {
        Ok(None)
    }
}

// The first of a dial's name and that of its ctl file, which no world says, that a remote file has.
fn taken_by_dial(alloc: Global, name: &Octets, left: &Left) -> Result<Option<Octets>, AllocError>
    ensures { IfOk result (λ taken. taken ≡ find (is_remote left.now) (name.now ∷ steps.dotted_name name.now ∷ [])) }
{
    if is_remote(left, name.as_slice()) {
        return Ok(Some(name.clone()?));
    }
    let mut dotted = Octets::from_slice(alloc, b".")?;
    dotted.append(name.as_slice())?;
    taken(&dotted, left)
}

// What a step begins with whose new names no remote file has.
fn begin(alloc: Global, step: &Step, left: &Left) -> Result<StepTask, AllocError>
    ensures { IfOk result (λ t. t ≡ spec.begun_own left.now step.now) }
{
    match step {
        Step::Open { name, path, mode } => Ok(once(open(name, path, *mode)?)),
        Step::Read { name, count } => Ok(once(Request::Read {
            name: name.clone()?,
            count: *count,
        })),
        Step::Write { name, text } => write(name, text),
        Step::Writex { name, text } => write(name, text),
        Step::Close { name } => close(name),
        Step::Ls { path } => list(path),
        Step::Cs { query } => ask_cs(query),
        Step::Until { moment } => Ok(once(Request::Until { moment: *moment })),
        Step::Refresh => Ok(once(Request::Refresh)),
        Step::Dial { name, address } => dial(alloc, name, address),
        Step::Announce { name, address } => announce(alloc, name, address),
        Step::Listen { name, from } => listen(alloc, name, from),
        Step::Accept { name, from } => accept(alloc, name, from),
        Step::Reject { name } => Ok(StepTask::Reject(Reject::new(alloc, name.as_slice())?)),
        Step::Hangup { name } => hang_up(alloc, name),
        Step::Hread { name, count } => hread(alloc, name, *count),
        Step::Hwrite { name, bytes } => hwrite(alloc, name, bytes),
        Step::Dns { name, times } => Ok(StepTask::Dns(Dns::new(alloc, name.as_slice(), *times)?)),
        Step::Export { name } => export(alloc, name),
        Step::Import { name } => Ok(StepTask::Import(Import::new(alloc, name.as_slice())?)),
        Step::Ropen {
            name,
            call,
            path,
            mode,
        } => ropen(alloc, name, call, path, *mode, left),
        Step::Rread { name, count } => rread(alloc, name, *count, left),
        Step::Rwrite { name, text } => rwrite(alloc, name, text, left),
        Step::Rclose { name } => rclose(alloc, name, left),
    }
}

fn close(name: &Octets) -> Result<StepTask, AllocError>
    ensures { IfOk result (λ t. t ≡ spec.asks_once (request.Close name.now)) }
{
    Ok(once(Request::Close {
        name: name.clone()?,
    }))
}

fn list(path: &Octets) -> Result<StepTask, AllocError>
    ensures { IfOk result (λ t. t ≡ spec.asks_once (request.Ls path.now)) }
{
    Ok(once(Request::Ls {
        path: path.clone()?,
    }))
}

fn ask_cs(query: &Octets) -> Result<StepTask, AllocError>
    ensures { IfOk result (λ t. t ≡ spec.asks_once (request.Cs query.now)) }
{
    Ok(once(Request::Cs {
        query: query.clone()?,
    }))
}

fn dial(alloc: Global, name: &Octets, address: &Octets) -> Result<StepTask, AllocError>
    ensures { (left : AnyLeft) → IfOk result (λ t. t ≡ spec.begun_own left (step.Dial name.now address.now)) }
{
    Ok(StepTask::Dial(Dial::new(alloc, name.as_slice(), address.as_slice())?))
}

fn announce(alloc: Global, name: &Octets, address: &Octets) -> Result<StepTask, AllocError>
    ensures { (left : AnyLeft) → IfOk result (λ t. t ≡ spec.begun_own left (step.Announce name.now address.now)) }
{
    Ok(StepTask::Announce(Announce::new(alloc, name.as_slice(), address.as_slice())?))
}

fn listen(alloc: Global, name: &Octets, from: &Octets) -> Result<StepTask, AllocError>
    ensures { (left : AnyLeft) → IfOk result (λ t. t ≡ spec.begun_own left (step.Listen name.now from.now)) }
{
    Ok(StepTask::Beside(Beside::listen(alloc, name.as_slice(), from.as_slice())?))
}

fn accept(alloc: Global, name: &Octets, from: &Octets) -> Result<StepTask, AllocError>
    ensures { (left : AnyLeft) → IfOk result (λ t. t ≡ spec.begun_own left (step.Accept name.now from.now)) }
{
    Ok(StepTask::Beside(Beside::accept(alloc, name.as_slice(), from.as_slice())?))
}

fn hread(alloc: Global, name: &Octets, count: u32) -> Result<StepTask, AllocError>
    ensures { (left : AnyLeft) → IfOk result (λ t. t ≡ spec.begun_own left (step.Hread name.now count)) }
{
    Ok(StepTask::Hread(Hread::new(alloc, name.as_slice(), count)?))
}

fn hwrite(alloc: Global, name: &Octets, bytes: &Octets) -> Result<StepTask, AllocError>
    ensures { (left : AnyLeft) → IfOk result (λ t. t ≡ spec.begun_own left (step.Hwrite name.now bytes.now)) }
{
    Ok(StepTask::Hwrite(Hwrite::new(alloc, name.as_slice(), bytes.as_slice())?))
}

fn rread(alloc: Global, name: &Octets, count: u32, left: &Left) -> Result<StepTask, AllocError>
    ensures { IfOk result (λ t. t ≡ spec.begun_own left.now (step.Rread name.now count)) }
{
    Ok(StepTask::Rread(Errand::read(alloc, name.as_slice(), count, left)?))
}

fn rclose(alloc: Global, name: &Octets, left: &Left) -> Result<StepTask, AllocError>
    ensures { IfOk result (λ t. t ≡ spec.begun_own left.now (step.Rclose name.now)) }
{
    Ok(StepTask::Rclose(Rclose::new(alloc, name.as_slice(), left)?))
}

// Exports over a call. A name that no world says is asked for alone.
fn export(alloc: Global, name: &Octets) -> Result<StepTask, AllocError>
    ensures { (left : AnyLeft) → IfOk result (λ t. t ≡ spec.begun_own left (step.Export name.now)) }
{
    if is_dotted(name.as_slice()) {
        return unbound(name);
    }
    Ok(StepTask::Export(Export::new(alloc, name.as_slice())?))
}

// Whether a name begins with a dot.
fn is_dotted(name: &[u8]) -> bool
    ensures { result ≡ exports.is_dotted name.now }
{
    match name.first() {
        Some(byte) => *byte == b'.',
        None => false,
    }
}

// Opens a remote file. A path that no world says asks for the name alone.
fn ropen(
    alloc: Global,
    name: &Octets,
    call: &Octets,
    path: &Octets,
    mode: Mode,
    left: &Left,
) -> Result<StepTask, AllocError>
    ensures { IfOk result (λ t. t ≡ spec.begun_own left.now (step.Ropen name.now call.now path.now mode)) }
{
    if !is_remote_path(path.as_slice()) {
        return unbound(name);
    }
    Ok(StepTask::Ropen(Ropen::new(
        alloc,
        name.as_slice(),
        call.as_slice(),
        path.as_slice(),
        mode,
        left,
    )?))
}

// Writes to a remote file. A text that no world says asks for the name alone.
fn rwrite(alloc: Global, name: &Octets, text: &Octets, left: &Left) -> Result<StepTask, AllocError>
    ensures { IfOk result (λ t. t ≡ spec.begun_own left.now (step.Rwrite name.now text.now)) }
{
    if LONGEST_TEXT < text.len() {
        return unbound(name);
    }
    Ok(StepTask::Rwrite(Errand::write(alloc, name.as_slice(), text.as_slice(), left)?))
}

fn unbound(name: &Octets) -> Result<StepTask, AllocError>
    ensures { IfOk result (λ t. t ≡ spec.asks_once (request.Unbound name.now)) }
{
    Ok(once(Request::Unbound {
        name: name.clone()?,
    }))
}

/// What a step that has recorded nothing asks. Where its first request is in the step itself, no task is made for it.
pub fn first_request(
    alloc: Global,
    fids: &Names,
    step: &Step,
    left: &Left,
) -> Result<Option<Request>, AllocError>
    ensures { IfOk result (λ q. q ≡ spec.asks (spec.begun left.now step.now) fids.now.names) }
{
    match step {
        Step::Open { name, path, mode } if !is_remote(left, name.as_slice()) => {
            Ok(Some(open(name, path, *mode)?))
        }
        Step::Read { name, count } => Ok(Some(Request::Read {
            name: name.clone()?,
            count: *count,
        })),
        Step::Write { name, text } => Ok(Some(Request::Write {
            name: name.clone()?,
            text: text.clone()?,
        })),
        Step::Writex { name, text } => Ok(Some(Request::Write {
            name: name.clone()?,
            text: text.clone()?,
        })),
        Step::Until { moment } => Ok(Some(Request::Until { moment: *moment })),
        _ => StepTask::new(alloc, step, left)?.next(alloc, fids),
    }
}

/// Whether a step that has recorded nothing is seen, without its task, to be through after this reply.
#[tactic(auto, using(crate::specs::Leaving::ends_keep))]
pub fn ends_by(step: &Step, reply: &Reply) -> bool
    ensures through { result ≡ true → (left : AnyLeft) (names : AnyNames)
        → spec.asks (spec.after (spec.begun left step.now) reply.now) names ≡ None }
    ensures keeps { result ≡ true → (left : AnyLeft)
        → spec.leaves (spec.after (spec.begun left step.now) reply.now) left ≡ left }
{
    match step {
        Step::Open { .. }
        | Step::Read { .. }
        | Step::Close { .. }
        | Step::Ls { .. }
        | Step::Cs { .. }
        | Step::Until { .. } => true,
        Step::Write { .. } | Step::Writex { .. } | Step::Hangup { .. } => !is_granted(reply),
        _ => false,
    }
}

// A step of one request.
fn once(request: Request) -> StepTask
    ensures { result ≡ spec.asks_once request }
{
    StepTask::OneRequest(OneRequest::new(request))
}

// Opens a path, in its own mode where the step names none.
fn open(name: &Octets, path: &Octets, mode: Option<Mode>) -> Result<Request, AllocError>
    ensures { (left : AnyLeft) → IfOk result (λ q. spec.begun_own left (step.Open name.now path.now mode)
        ≡ spec.asks_once q) }
{
    let mode = match mode {
        Some(mode) => mode,
        None => default_mode(path.as_slice()),
    };
    Ok(Request::Open {
        name: name.clone()?,
        path: path.clone()?,
        mode,
    })
}

// The mode of an open that names none.
fn default_mode(path: &[u8]) -> Mode
    ensures { result ≡ steps.default_mode (paths.walk path.now) }
{
    match walk(path) {
        Ok(Node::File(_, _, file)) => file_mode(file),
        _ => Mode::Both,
    }
}

// The mode in which a file is opened where none is named.
fn file_mode(file: FileName) -> Mode
    ensures { result ≡ (if paths.is_read_alone file then mode.Read else mode.Both) }
{
    match file {
        FileName::Ctl => Mode::Both,
        FileName::Data => Mode::Both,
        FileName::Err => Mode::Read,
        FileName::Listen => Mode::Both,
        FileName::Local => Mode::Read,
        FileName::Remote => Mode::Read,
        FileName::Status => Mode::Read,
    }
}

// Writes a text.
fn write(name: &Octets, text: &Octets) -> Result<StepTask, AllocError>
    ensures { IfOk result (λ t. t ≡ spec.writes_text name.now text.now) }
{
    Ok(StepTask::WriteText(WriteText::new(name.clone()?, text.clone()?)))
}

// Writes `hangup`.
fn hang_up(alloc: Global, name: &Octets) -> Result<StepTask, AllocError>
    ensures { IfOk result (λ t. t ≡ spec.writes_text name.now (codes "hangup")) }
{
    Ok(StepTask::WriteText(WriteText::new(name.clone()?, Octets::from_slice(alloc, b"hangup")?)))
}
