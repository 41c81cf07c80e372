//! One turn for each path: a request, one exchange, and what is kept of the answer.
ghost use Rattle.std.specs.Prelude.{◌≡◌, ◌≢◌, ◌∷◌, [], ◌++◌, ◌≤◌, ℕ, List, map, Some, IsTrue, IfOk, IfSome, OnOk, OnErr, option_map};
ghost use Rattle.std.specs.List.{list_all};
ghost use Rattle.tame_names.specs.Counts.{CountRose};
ghost use Rattle.tame_names.specs.KrateNames.{text_of};
ghost use Rattle.tame_names.specs.Names.{IsIndexPath, is_name, path};
ghost use Rattle.tame_entry.specs.ServerMaps.{Maps, ServerMap};
ghost use Rattle.tame_entry.specs.Revision.{http_value};
ghost use Rattle.tame_cache.specs.Disk.{reads};
ghost use Rattle.tame_cache.specs.Folders.{MakesOnly};
ghost use Rattle.tame_cache.specs.Kept.{IsKept, Keeps, cache_file_of};
ghost use Rattle.tame_sparse.specs.declared.network.Exchange.{Exchange};
ghost use Rattle.tame_sparse.specs.ResponseResults.{IsToStore, StoresUnlessFailed, entry_of};
ghost use Rattle.audit_core.specs.Answers.{IsAnswer};
ghost use Rattle.tame_sparse.specs.Exchanges.{crates_io_index, crates_io_uri};
ghost use Rattle.audit_core.specs.Blamed.{BlamesStore};
ghost use Rattle.audit_core.specs.FailedReads.{TurnsFail};
ghost use Rattle.audit_core.specs.Sent.{HoldsSent, KeepsSent};
ghost use Rattle.audit_core.specs.Turns.{AddsTurns, AddsNamed, AddsPart, AreCaused, Chains, IsExchanged, IsFileOf, IsNoFileOf, StaysKept, LeavesFile, disk_at, index_file};

use crate::answers::{PathAnswer, answer_taken};
use crate::verdicts::Cause;
use std::alloc::Global;
use tame_cache::CacheDisk;
use tame_names::{Error, FileLock, Items, KrateName, NoMemory, Text};
use tame_sparse::{Request, Response, SparseIndex, Wire, WireAnswer, WireFault};

/// The turn of a path: the counts of faults of the wire before and after its exchange, and those
/// of the disk before the request, before the exchange and after the response.
#[derive(Debug, Drop, PartialEq, Eq)]
pub struct Turn {
    /// The path in the index.
    pub path: Text,
    /// The wire's count of faults before the exchange.
    pub wire_before: u64,
    /// The wire's count of faults after the exchange.
    pub wire_after: u64,
    /// The disk's count of faults before the request was created.
    pub disk_before: u64,
    /// The disk's count of faults after that, before the exchange.
    pub disk_asked: u64,
    /// The disk's count of faults after the response was taken.
    pub disk_after: u64,
}

/// The turn of a path, with what its answer says.
#[derive(Drop)]
pub struct AnsweredTurn {
    /// The turn.
    pub turn: Turn,
    /// What the answer says.
    pub answer: PathAnswer,
}

/// What came, as the index takes it.
fn response_of(answer: &WireAnswer) -> Response<'_>
    ensures status { result.status_code ≡ answer.now.status }
    ensures revision { option_map http_value result.revision ≡ answer.now.revision }
    ensures body { result.body.now ≡ answer.now.body }
{
    let revision = match &answer.revision {
        Some(revision) => Some(revision.as_http()),
        None => None,
    };
    Response {
        status_code: answer.status,
        revision,
        body: answer.body.as_slice(),
    }
}

/// Takes an answer, and keeps a body that was sent.
fn take_answer<D: CacheDisk>(
    alloc: Global,
    index: &SparseIndex,
    lock: &FileLock,
    disk: &mut D,
    name: KrateName<'_>,
    answer: &WireAnswer,
) -> Result<PathAnswer, NoMemory>
    requires root { index.now.cache.path ≡ [] }
    requires url { index.now.cache.index ≡ crates_io_index }
    ensures answer { (answer.now.status ≡ 304 → D.tells) → (q : List ℕ)
        → cache_file_of [] (text_of name.entry) ≡ Some q
        → IfOk result (IsAnswer (reads (D.past disk.old q)) (Some answer.now)) }
    ensures leaves { D.tells → (q : List ℕ) → cache_file_of [] (text_of name.entry) ≡ Some q
        → OnOk result (LeavesFile (Some answer.now) (D.faults disk.old) (D.faults disk.new)
        (D.past disk.old q) (D.past disk.new q)) }
    ensures others { D.tells → (q : List ℕ) → cache_file_of [] (text_of name.entry) ≢ Some q
        → D.past disk.new q ≡ D.past disk.old q }
    ensures folders { D.tells → MakesOnly (λ q. cache_file_of [] (text_of name.entry) ≡ Some q)
        (D.folders disk.old) (D.folders disk.new) }
    ensures kept { D.tells → (m : ServerMap)
        → ((p : List ℕ) → path (text_of name.entry) ≡ Some p → answer.now.status ≡ 200
        → IfSome answer.now.revision (λ r. Maps m p r answer.now.body))
        → IsKept m crates_io_index [] (D.past disk.old)
        → Keeps m crates_io_index [] (D.past disk.old) (D.past disk.new) }
    ensures sent { D.tells → (es : List Exchange) (e : Exchange) → e.answer ≡ Some answer.now
        → path (text_of name.entry) ≡ Some e.path → IsIndexPath e.path
        → HoldsSent es (D.past disk.old)
        → KeepsSent (es ++ e ∷ []) (D.past disk.old) (D.past disk.new) }
    ensures stored_unless_failed { D.tells → (q : List ℕ)
        → cache_file_of [] (text_of name.entry) ≡ Some q
        → IsToStore crates_io_index answer.now
        → OnOk result (StoresUnlessFailed (entry_of crates_io_index answer.now) q
        (D.past disk.new q) (D.failed disk.old) (D.failed disk.new)) }
    ensures blames { (q : List ℕ) → cache_file_of [] (text_of name.entry) ≡ Some q
        → IfOk result (BlamesStore q (D.failed disk.old) (D.failed disk.new)) }
    ensures unfailed { (q : List ℕ) → cache_file_of [] (text_of name.entry) ≡ Some q
        → ¬ (IsToStore crates_io_index answer.now)
        → IfOk result (λ a. a ≢ PathAnswer.Settled Cause.Store
        → D.failed disk.new ≡ D.failed disk.old) }
    ensures store { IfOk result (λ a. a ≡ PathAnswer.Settled Cause.Store
        → CountRose (D.faults disk.old) (D.faults disk.new)) }
    ensures not_wire { IfOk result (λ a. a ≢ PathAnswer.Settled Cause.Wire) }
    ensures later { D.faults disk.old ≤ D.faults disk.new }
{
    let response = response_of(answer);
    let taken = index.parse_remote_response(alloc, name, response, true, lock, disk);
    answer_taken(alloc, taken)
}

/// Makes the exchange of a request, and takes its answer.
fn exchange_answer<W: Wire, D: CacheDisk>(
    alloc: Global,
    index: &SparseIndex,
    lock: &FileLock,
    wire: &mut W,
    disk: &mut D,
    name: KrateName<'_>,
    request: &Request,
) -> Result<PathAnswer, NoMemory>
    requires root { index.now.cache.path ≡ [] }
    requires index { index.now.cache.index ≡ crates_io_index }
    requires place { path (text_of name) ≡ Some request.now.path }
    requires index_path { IsIndexPath request.now.path }
    requires url { request.now.uri ≡ crates_io_uri request.now.path }
    ensures answered_turns { W.tells
        → IfOk result (λ a. (e : Exchange) × (W.exchanges wire.new ≡ W.exchanges wire.old ++ e ∷ [])
        × (e.path ≡ request.now.path) × (e.named ≡ request.now.named)
        × (e.url ≡ crates_io_uri e.path)
        × IsExchanged D.tells (D.faults disk.old) (D.faults disk.new)
        (disk_at (D.past disk.old) (D.failed disk.old))
        (disk_at (D.past disk.new) (D.failed disk.new)) e a) }
    ensures part { W.tells → OnErr result
        (AddsPart (request.now.path ∷ []) (W.exchanges wire.old) (W.exchanges wire.new)) }
    ensures kept { W.tells → D.tells
        → StaysKept (W.exchanges wire.old) (W.exchanges wire.new) (D.past disk.old)
        (D.past disk.new) }
    ensures wire { IfOk result (λ a. a ≡ PathAnswer.Settled Cause.Wire
        → CountRose (W.faults wire.old) (W.faults wire.new)) }
    ensures store { IfOk result (λ a. a ≡ PathAnswer.Settled Cause.Store
        → CountRose (D.faults disk.old) (D.faults disk.new)) }
    ensures blames { IfOk result (BlamesStore (index_file request.now.path) (D.failed disk.old)
        (D.failed disk.new)) }
    ensures becomes { W.becomes wire.old wire.new }
    ensures later_wire { W.faults wire.old ≤ W.faults wire.new }
    ensures later_disk { D.faults disk.old ≤ D.faults disk.new }
    ensures others { D.tells → (q : List ℕ) → q ≢ index_file request.now.path
        → D.past disk.new q ≡ D.past disk.old q }
    ensures folders { D.tells → MakesOnly (λ q. cache_file_of [] (text_of name.entry) ≡ Some q)
        (D.folders disk.old) (D.folders disk.new) }
{
    match wire.exchange(alloc, request) {
        Ok(answer) => take_answer(alloc, index, lock, disk, name, &answer),
        Err(WireFault::Failed) => Ok(PathAnswer::Settled(Cause::Wire)),
        Err(WireFault::NoMemory) => Err(NoMemory),
    }
}

/// The name that a text is.
pub fn krate_name(text: &Text) -> KrateName<'_>
    requires { IsTrue (is_name text.now) }
    ensures { text_of result ≡ text.now }
{
    match KrateName::try_from(text.as_str()) {
        Ok(name) => name,
        Err(_) => unreachable!(),
    }
}

/// The turn of a name.
fn take_turn<W: Wire, D: CacheDisk>(
    alloc: Global,
    index: &SparseIndex,
    lock: &FileLock,
    wire: &mut W,
    disk: &mut D,
    name: &Text,
) -> Result<AnsweredTurn, NoMemory>
    requires root { index.now.cache.path ≡ [] }
    requires url { index.now.cache.index ≡ crates_io_index }
    requires named { IsTrue (is_name name.now) }
    ensures path { IfOk result (λ h. path name.now ≡ Some h.turn.path) }
    ensures counts { IfOk result (λ h. Chains (W.faults wire.old) (D.faults disk.old) (h.turn ∷ [])
        (W.faults wire.new) (D.faults disk.new)) }
    ensures caused { IfOk result (λ h. AreCaused (h ∷ [])) }
    ensures said { W.tells → IfOk result
        (λ h. AddsTurns D.tells (W.exchanges wire.old) (W.exchanges wire.new)
        (disk_at (D.past disk.old) (D.failed disk.old)) (h ∷ [])
        (disk_at (D.past disk.new) (D.failed disk.new))) }
    ensures fails { D.tells
        → IfOk result (λ h. TurnsFail (D.failed disk.old) (h ∷ []) (D.failed disk.new)) }
    ensures becomes { W.becomes wire.old wire.new }
    ensures part { W.tells → OnErr result
        (AddsNamed (name.now ∷ []) (W.exchanges wire.old) (W.exchanges wire.new)) }
    ensures kept { W.tells → D.tells
        → StaysKept (W.exchanges wire.old) (W.exchanges wire.new) (D.past disk.old)
        (D.past disk.new) }
    ensures others { D.tells → (q : List ℕ) → cache_file_of [] name.now ≢ Some q
        → D.past disk.new q ≡ D.past disk.old q }
    ensures folders { D.tells → MakesOnly (λ q. cache_file_of [] name.now ≡ Some q)
        (D.folders disk.old) (D.folders disk.new) }
{
    let wire_before = wire.wire_faults();
    let disk_before = disk.disk_faults();
    let krate = krate_name(name);
    let request = match index.make_remote_request(alloc, krate, None, lock, disk) {
        Ok(request) => request,
        Err(Error::NoMemory) => return Err(NoMemory),
        Err(_) => unreachable!("a plain request can be made"),
    };
    let disk_asked = disk.disk_faults();
    let answer = exchange_answer(alloc, index, lock, wire, disk, krate, &request)?;
    let Request { path, .. } = request;
    Ok(AnsweredTurn {
        turn: Turn {
            path,
            wire_before,
            wire_after: wire.wire_faults(),
            disk_before,
            disk_asked,
            disk_after: disk.disk_faults(),
        },
        answer,
    })
}

/// One turn for each name, in their order; if out of memory, for those that were asked until then.
pub fn ask_all<W: Wire, D: CacheDisk>(
    alloc: Global,
    index: &SparseIndex,
    lock: &FileLock,
    wire: &mut W,
    disk: &mut D,
    names: &[Text],
) -> Result<Items<AnsweredTurn>, NoMemory>
    requires root { index.now.cache.path ≡ [] }
    requires url { index.now.cache.index ≡ crates_io_index }
    requires named { IsTrue (list_all is_name names.now) }
    ensures paths { IfOk result (λ hs. map (λ h. Some h.turn.path) hs ≡ map path names.now) }
    ensures counts { IfOk result (λ hs. Chains (W.faults wire.old) (D.faults disk.old)
        (map (λ h. h.turn) hs) (W.faults wire.new) (D.faults disk.new)) }
    ensures caused { IfOk result AreCaused }
    ensures said { W.tells → IfOk result
        (λ hs. AddsTurns D.tells (W.exchanges wire.old) (W.exchanges wire.new)
        (disk_at (D.past disk.old) (D.failed disk.old)) hs
        (disk_at (D.past disk.new) (D.failed disk.new))) }
    ensures fails { D.tells
        → IfOk result (λ hs. TurnsFail (D.failed disk.old) hs (D.failed disk.new)) }
    ensures becomes { W.becomes wire.old wire.new }
    ensures part { W.tells → OnErr result
        (AddsNamed names.now (W.exchanges wire.old) (W.exchanges wire.new)) }
    ensures kept { W.tells → D.tells
        → StaysKept (W.exchanges wire.old) (W.exchanges wire.new) (D.past disk.old)
        (D.past disk.new) }
    ensures others { D.tells → (q : List ℕ) → IsNoFileOf names.now q
        → D.past disk.new q ≡ D.past disk.old q }
    ensures folders { D.tells → MakesOnly (IsFileOf names.now) (D.folders disk.old)
        (D.folders disk.new) }
{
    let mut answered_turns = Items::new(alloc);
    for name in names {
        let turn = take_turn(alloc, index, lock, wire, disk, name)?;
        answered_turns.add(turn)?;
    }
    Ok(answered_turns)
}
