//! What journals mean: the log that they make, what they leave, and which of them are legal.
//! The definitions stand in `specs/`; the functions here have no bodies and state laws about them.
#![tactic(auto)]

ghost use Rattle.std.specs.Prelude.{◌≡◌, ◌≢◌, ◌⊎◌, ◌≤◌, ◌+◌, true, false, ℕ, List, [], ◌∷◌, ◌++◌, length, ◌↔◌, Some, None, IsSome};
ghost use Rattle.std.specs.List.{AllByRecursion};
ghost use Rattle.sx_values.specs.declared.value.Value.{Value};
ghost use Rattle.sx_values.specs.declared.catalog.Declared.{Declared};
ghost use Rattle.sx_log.specs.declared.record.Rec.{Rec};
ghost use Rattle.sx_log.specs.declared.record.Load.{Load};
ghost use Rattle.sx_log.specs.State.{state_at, state_at_place, row_left};
ghost use Rattle.sx_log.specs.Copies.{redone};
ghost use Rattle.sx_log.specs.Images.{FitsTables};
ghost use Rattle.sx_values.specs.Catalogs.{declared_as, schema_of};
ghost use Rattle.sx_log.specs.Committed.{commits, committed};
ghost use Rattle.sx_sync.specs.declared.Phase.TheVariants.{Idle, Scanning, Chasing, Draining, Done};
ghost use Rattle.sx_journal.specs.declared.entry.Entry.{Entry};
ghost use Rattle.sx_journal.specs.declared.entry.Request.{Request};
ghost use Rattle.sx_journal.specs.declared.entry.Reply.TheVariants as reply;
ghost use Rattle.sx_journal.specs.Courses.{index_of};
ghost use Rattle.sx_model.specs.Openings.{Opening, opening};
ghost use Rattle.sx_model.specs.Befores.{KeepsSince};
ghost use Rattle.sx_model.specs.LoadRecords.{IsOpened};
ghost use Rattle.sx_model.specs.Leaves.{Started, living, begun, started, phase};
ghost use Rattle.sx_model.specs.Clients.{IsClient, AreLiving};
ghost use Rattle.sx_model.specs.Logs.{log_of, next_lsn};
ghost use Rattle.sx_model.specs.Known.{known};
ghost use Rattle.sx_model.specs.Switches.{switch_reply, position};
ghost use Rattle.sx_model.specs.Legal.{Legal};
ghost use Rattle.sx_model.specs.Copies.{copy, scan_end};
ghost use Rattle.sx_model.specs.Loads.{AreLoads};
ghost use Rattle.sx_ops.specs.Operators.{sources_of};
ghost use Rattle.sx_model.specs.Scans.{reading, IsRowNow, SawAll, Covers};
ghost use Rattle.sx_model.specs.Schedules.{Plan, Line, standing_of, open_line, next_request, client_turn, next_turn, Stepped, KeepsScript, IsComplete};
ghost use Rattle.sx_model.specs.Undone.{has_undone};
ghost use Rattle.sx_model.specs.Tables.{AreNewTables, AreCommittedNewTables};

/// A journal whose events are those of one thread keeps the script.
pub fn stepped_keeps_the_script()
    ensures { (plan : Plan) (past : List Entry) → Stepped plan past → KeepsScript plan past }
{}

/// The next turn of one thread, where it is a client's, is that client's next request.
pub fn a_clients_turn_is_its_next_request()
    ensures { (plan : Plan) (past : List Entry) (actor : ℕ) (asked : Request) → next_turn plan past ≡ Some (client_turn actor asked) → next_request plan actor past ≡ Some asked }
{}

/// And its client is one from 1 to 8, where those of the script's lines are.
pub fn a_clients_turn_is_of_a_client()
    ensures { (o : Opening) (plan : Plan) (past : List Entry) (actor : ℕ) (asked : Request) → Legal o past → AllByRecursion (λ (l : Line). IsClient l.client) plan.lines → next_turn plan past ≡ Some (client_turn actor asked) → IsClient actor }
{}

/// A journal of one thread that has no next turn is complete.
pub fn stepped_to_the_end_is_complete()
    ensures { (plan : Plan) (past : List Entry) → Stepped plan past → next_turn plan past ≡ None → IsComplete plan past }
{}

/// What loaded rows open has one Write of transaction 0 for each of them, and no other record.
pub fn loaded_rows_open()
    ensures { (catalog : List Declared) (loads : List Load) → IsOpened (opening catalog loads) }
{}

/// Two keys of a table whose rows have one LSN are one key.
pub fn an_lsn_is_of_one_key()
    ensures { (log : List Rec) (table : List ℕ) (key other row shown : List Value) (lsn : ℕ) → state_at log table key ≡ Some (row, lsn) → state_at log table other ≡ Some (shown, lsn) → key ≡ other }
{}

/// A scan that saw each row that its table has, and those alone, has read the state.
pub fn a_whole_scan_reads_the_state()
    ensures { (log : List Rec) (lsns table : List ℕ) → AllByRecursion (IsRowNow log table) lsns → SawAll log lsns table → (key : List Value) → reading log lsns table key ≡ state_at log table key }
{}

/// And so it covers the table, from each Mark on.
pub fn a_whole_scan_covers()
    ensures { (log : List Rec) (mark : ℕ) (lsns table : List ℕ) → mark ≤ length log → AllByRecursion (IsRowNow log table) lsns → SawAll log lsns table → Covers log mark lsns table }
{}

/// What was read of a key at some place from the Mark on, followed by every record behind the Mark, is its state, where
/// each of these records' image before is the row that was there.
pub fn redo_converges()
    ensures { (newer log : List Rec) (mark : ℕ) (table : List ℕ) (key : List Value) → mark ≤ length log → KeepsSince mark (newer ++ log) table key → redone (newer ++ log) mark table key (state_at log table key) ≡ state_at (newer ++ log) table key }
{}

/// Convergence: once the scan of a table has ended and the position has come to where it ended, the copy is the table's
/// state at the position, rows and LSNs.
pub fn the_copy_converges()
    ensures { (o : Opening) (past : List Entry) (s : Started) (table : List ℕ) (key : List Value) → Legal o past → started past ≡ Some s → sources_of s.spec ≡ table ∷ [] → IsSome (declared_as o.catalog table) → (phase past ≢ Scanning) → scan_end o past ≤ position o past → position o past ≤ length (log_of o past) → copy o past 0 key ≡ state_at_place (log_of o past) (position o past) table key }
{}

/// Wherever the position stands then, the records behind it make the copy the table's state now.
pub fn the_tail_makes_the_state()
    ensures { (o : Opening) (past : List Entry) (s : Started) (table : List ℕ) (key : List Value) → Legal o past → started past ≡ Some s → sources_of s.spec ≡ table ∷ [] → IsSome (declared_as o.catalog table) → (phase past ≢ Scanning) → s.mark ≤ position o past → position o past ≤ length (log_of o past) → redone (log_of o past) (position o past) table key (copy o past 0 key) ≡ state_at (log_of o past) table key }
{}

/// Loaded rows that are admitted fit their tables.
pub fn loads_fit()
    ensures { (catalog : List Declared) (loads : List Load) → AreLoads catalog loads → AllByRecursion (λ r. FitsTables (schema_of catalog) r.body) (opening catalog loads).loads }
{}

/// In a legal journal the live transactions are of different clients from 1 to 8, and have different numbers from 1 to
/// as many as were begun.
pub fn the_living_differ()
    ensures { (o : Opening) (past : List Entry) → Legal o past → AreLiving (begun past) (living past) }
{}

/// And so they are at most eight.
pub fn at_most_eight_live()
    ensures { (o : Opening) (past : List Entry) → Legal o past → length (living past) ≤ 8 }
{}

/// In a legal journal nothing was started exactly while the phase is Idle.
pub fn idle_until_started()
    ensures { (o : Opening) (past : List Entry) → Legal o past → (phase past ≡ Idle) ↔ (started past ≡ None) }
{}

/// Each entry makes one record at most.
pub fn the_log_grows_by_one()
    ensures { (o : Opening) (past : List Entry) (e : Entry) → length (log_of o (e ∷ past)) ≤ length (log_of o past) + 1 }
{}

/// A committed transaction has undone nothing: the log has no Undo record of it.
pub fn a_committed_transaction_has_undone_nothing()
    ensures { (o : Opening) (past : List Entry) (txn : ℕ) → IsOpened o → AllByRecursion (λ r. FitsTables (schema_of o.catalog) r.body) o.loads → Legal o past → commits (log_of o past) txn ≡ true → has_undone (log_of o past) txn ≡ false }
{}

/// Where no transaction lives the committed writes alone leave the rows that the log leaves in a declared table.
pub fn at_rest_the_rows_are_the_committed_ones()
    ensures { (o : Opening) (past : List Entry) (table : List ℕ) (key : List Value) → IsOpened o → AllByRecursion (λ r. FitsTables (schema_of o.catalog) r.body) o.loads → Legal o past → living past ≡ [] → IsSome (declared_as o.catalog table) → row_left (committed (log_of o past)) table key ≡ row_left (log_of o past) table key }
{}

/// And so the new tables are the committed ones.
pub fn at_rest_the_new_tables_are_the_committed_ones()
    ensures { (o : Opening) (past : List Entry) (s : Started) (tables : List (List (List Value))) → IsOpened o → AllByRecursion (λ r. FitsTables (schema_of o.catalog) r.body) o.loads → Legal o past → living past ≡ [] → phase past ≡ Done → started past ≡ Some s → AreNewTables o past s tables → AreCommittedNewTables o past s tables }
{}

/// Lines that are worked through stay so, whatever comes.
pub fn worked_lines_stay_so()
    ensures { (plan : Plan) (past : List Entry) (e : Entry) → open_line plan past ≡ None → open_line plan (e ∷ past) ≡ None }
{}

/// A client's line is never open again that it has come past: its standing goes on, or stays.
pub fn a_client_never_goes_back()
    ensures { (plan : Plan) (client : ℕ) (past : List Entry) (e : Entry) → index_of (standing_of plan client past) ≤ index_of (standing_of plan client (e ∷ past)) }
{}

/// A legal journal's entries and live transactions are at most 50,001.
pub fn a_journal_is_bounded()
    ensures { (o : Opening) (past : List Entry) → Legal o past → length past + length (living past) ≤ 50001 }
{}

/// A switch is done where the scan has ended, the log is read and nobody lives.
pub fn a_switch_at_rest_is_done()
    ensures { (o : Opening) (past : List Entry) → Legal o past → living past ≡ [] → (phase past ≡ Chasing) ⊎ (phase past ≡ Draining) → length (log_of o past) ≤ position o past → switch_reply o past ≡ reply.Switched (next_lsn o past) }
{}

/// Where the loaded rows are admitted, each image of a record of a legal journal's log is a row that its table admits, of the record's key.
pub fn images_fit()
    ensures { (o : Opening) (past : List Entry) → AllByRecursion (λ r. FitsTables (schema_of o.catalog) r.body) o.loads → Legal o past → AllByRecursion (λ r. FitsTables (schema_of (known o past)) r.body) (log_of o past) }
{}
