//! What the definitions of this crate come to.
ghost use Rattle.std.specs.Prelude.{◌≡◌, ◌<◌, ◌≤◌, ◌∷◌, ◌++◌, [], ℕ, List, length, slice_get, take, Some};
ghost use Rattle.rma_base.specs.declared.rank.Rank.{Rank};
ghost use Rattle.rma_call.specs.Call.{Call, RankCalls};
ghost use Rattle.rma_call.specs.declared.rma.RmaCall.{RmaCall};
ghost use Rattle.rma_call.specs.declared.what.What.TheVariants as what;
ghost use Rattle.rma_lex.specs.Checked.{checked_lines};
ghost use Rattle.rma_log.specs.Calls.{calls_of};
ghost use Rattle.rma_log.specs.Ends.{AreCallsOf};
ghost use Rattle.rma_log.specs.Logs.{AreGood, Checked, entries};
ghost use Rattle.rma_kept.specs.Kept.{AreKept, AreWhole, IsKeptAfter};
ghost use Rattle.rma_kept.specs.Naming.{Creates, Declares};
ghost use Rattle.rma_kept.specs.Requests.{Awaits, Makes};

/// The calls of a good log are whole.
pub fn calls_of_logs_are_whole()
    ensures { (rank logs : ℕ) (lines : List Checked) (own : RankCalls) → AreCallsOf rank logs lines own → AreWhole own.rank.0 logs own.calls }
{}

/// The calls of lines that are good so far, which may lack the end, are kept.
pub fn calls_of_good_lines_are_kept()
    ensures { (rank logs : ℕ) (lines : List Checked) → AreGood rank logs lines → AreKept rank logs (calls_of (entries lines)) }
{}

/// The first calls of kept calls are kept.
pub fn first_calls_are_kept()
    ensures { (rank logs count : ℕ) (calls : List Call) → AreKept rank logs calls → AreKept rank logs (take count calls) }
{}

/// One call more leaves kept calls kept where it is as it may be after them.
pub fn kept_calls_go_on()
    ensures { (rank logs : ℕ) (calls : List Call) (call : Call) → AreKept rank logs calls → IsKeptAfter rank logs calls call → AreKept rank logs (calls ++ call ∷ []) }
{}

/// Kept calls make a request once, wait for it once, create a window once, and declare a communicator once.
pub fn names_are_given_once()
    ensures requests { (rank logs i j number : ℕ) (calls : List Call) (one other : Call) → AreKept rank logs calls → slice_get calls i ≡ Some one → slice_get calls j ≡ Some other → Makes number one → Makes number other → i ≡ j }
    ensures waits { (rank logs i j number : ℕ) (calls : List Call) (one other : Call) → AreKept rank logs calls → slice_get calls i ≡ Some one → slice_get calls j ≡ Some other → Awaits number one → Awaits number other → i ≡ j }
    ensures windows { (rank logs i j : ℕ) (window : List ℕ) (calls : List Call) (one other : Call) → AreKept rank logs calls → slice_get calls i ≡ Some one → slice_get calls j ≡ Some other → Creates window one → Creates window other → i ≡ j }
    ensures comms { (rank logs i j : ℕ) (comm : List ℕ) (calls : List Call) (one other : Call) → AreKept rank logs calls → slice_get calls i ≡ Some one → slice_get calls j ≡ Some other → Declares comm one → Declares comm other → i ≡ j }
{}

/// The target of an access has a log.
pub fn targets_have_logs()
    ensures { (rank logs place : ℕ) (calls : List Call) (call : Call) (access : RmaCall) (target : Rank) → AreKept rank logs calls → slice_get calls place ≡ Some call → call.what ≡ what.Rma access → access.target ≡ Some target → target.0 < logs }
{}

/// A log has fewer calls than lines, and than its text has bytes; lines that are good so far have no more calls than lines.
pub fn calls_are_fewer_than_lines()
    ensures whole { (rank logs : ℕ) (lines : List Checked) (own : RankCalls) → AreCallsOf rank logs lines own → length own.calls < length lines }
    ensures good { (rank logs : ℕ) (lines : List Checked) → AreGood rank logs lines → length (calls_of (entries lines)) ≤ length lines }
    ensures lines { (text : List ℕ) → length (checked_lines text) ≤ length text }
    ensures bytes { (rank logs : ℕ) (text : List ℕ) (own : RankCalls) → AreCallsOf rank logs (checked_lines text) own → length own.calls < length text }
{}
