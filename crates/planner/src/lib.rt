// The C interface: each function takes numbers and slices, and answers 0 or more, or minus the refusal's number.
// A slice is a pointer and then its number of elements. `include/planner.h` declares the functions.
#![tactic(auto)]

ghost use Rattle.std.specs.Prelude.{◌≡◌, length};
ghost use Rattle.table.specs.Answers.{code_of};
ghost use Rattle.table.specs.Check.{check_of};
ghost use Rattle.table.specs.Empty.{empty_of, emptied};
ghost use Rattle.tracing.specs.Call.{list_answer, list_out};
ghost use Rattle.edits.specs.Edits.{answer, edited};
ghost use Rattle.edits.specs.Rules.{reply, reply_code};
ghost use Rattle.forecasts.specs.Forecast.{ask, commit_reply, committed};
ghost use Rattle.forecasts.specs.Number.{asked_code, forecast_in};
ghost use Rattle.surface.specs.Calls.{counts_answer, counts_out, parts_answer, parts_out};
ghost use Rattle.weave.specs.Calls.{alternates_of, plain_of, letters_of, letters_out};
ghost use Rattle.lengths.specs.CutLength.{cut_length_of};
ghost use Rattle.prices.specs.Sheet.{sheet_answer, sheet_out, quote_code};
ghost use Rattle.reader.specs.Standing.{called_of};
ghost use Rattle.floatpath.specs.PathCall.{path_answer, forms_out, coords_out};
ghost use Rattle.wholepath.specs.WholePath.{whole_answer, whole_forms_out, whole_coords_out, whole_remainders_out};
ghost use Rattle.records.specs.Records.{mark_of};
ghost use Rattle.records_write.specs.Call.{marked_answer, marked_out};
ghost use Rattle.trial_jobs.specs.Trial.{trial_answer, trial_out};
ghost use Rattle.edits.specs.declared.edit.Edit.TheVariants.{AddVertex, RemoveVertex, InsertEdge, DeleteEdge, TurnEdge};

use edits_rule::reply::reply_code;
use forecasts_number::number::{asked_code, forecast_in};
use prices::quote::quote_code;
use reader::standing::{Standing, step_call};
use reader_tally::tally::Tally;
use table::answer::code;

// Fills the slice with the empty mesh.
#[unsafe(no_mangle)]
pub extern "C" fn planner_empty(t: &mut [u16]) -> i64
    ensures { (result ≡ code_of (empty_of t.old)) × (t.new ≡ emptied t.old) }
{
    code(table::empty::empty(t))
}

// Is the slice a good table.
#[unsafe(no_mangle)]
pub extern "C" fn planner_check(t: &[u16]) -> i64
    ensures { result ≡ code_of (check_of t.now) }
{
    code(check_table::whole::check(t))
}

// Writes the listing of the table's walks, and answers its number of words.
#[unsafe(no_mangle)]
pub extern "C" fn planner_listing(t: &[u16], out: &mut [u16]) -> i64
    ensures { (result ≡ code_of (list_answer t.now (length out.old))) × (out.new ≡ list_out t.now out.old) }
{
    code(tracing_listing::call::list(t, out))
}

// Adds vertex v.
#[unsafe(no_mangle)]
pub extern "C" fn planner_add_vertex(t: &mut [u16], v: u16) -> i64
    ensures { (result ≡ code_of (answer t.old (AddVertex v))) × (t.new ≡ edited t.old (AddVertex v)) }
{
    code(edits_do::vertex::add_vertex(t, v))
}

// Removes the isolated vertex v.
#[unsafe(no_mangle)]
pub extern "C" fn planner_remove_vertex(t: &mut [u16], v: u16) -> i64
    ensures { (result ≡ code_of (answer t.old (RemoveVertex v))) × (t.new ≡ edited t.old (RemoveVertex v)) }
{
    code(edits_do::vertex::remove_vertex(t, v))
}

// Inserts edge e with turns k and the length of its strip: dart 2e into corner c1, then 2e+1 into c2. Answers the face count and, above its 16 bits, the rule met.
#[unsafe(no_mangle)]
pub extern "C" fn planner_insert_edge(
    t: &mut [u16],
    e: u16,
    c1: u16,
    c2: u16,
    k: i16,
    strip: u16,
) -> i64
    ensures { (result ≡ reply_code (reply t.old (InsertEdge e c1 c2 k strip))) × (t.new ≡ edited t.old (InsertEdge e c1 c2 k strip)) }
{
    reply_code(edits_do::edge::insert_edge(t, e, c1, c2, k, strip))
}

// Deletes edge e. Answers the face count and, above its 16 bits, the rule met.
#[unsafe(no_mangle)]
pub extern "C" fn planner_delete_edge(t: &mut [u16], e: u16) -> i64
    ensures { (result ≡ reply_code (reply t.old (DeleteEdge e))) × (t.new ≡ edited t.old (DeleteEdge e)) }
{
    reply_code(edits_do::edge::delete_edge(t, e))
}

// Turns edge e by an amount. Answers the face count and, above its 16 bits, the rule met.
#[unsafe(no_mangle)]
pub extern "C" fn planner_turn_edge(t: &mut [u16], e: u16, amount: i16) -> i64
    ensures { (result ≡ reply_code (reply t.old (TurnEdge e amount))) × (t.new ≡ edited t.old (TurnEdge e amount)) }
{
    reply_code(edits_do::edge::turn_edge(t, e, amount))
}

// What inserting edge e would do: the face count after, above its 16 bits the rule, above 32 the face count before.
#[unsafe(no_mangle)]
pub extern "C" fn planner_ask_insert_edge(
    t: &[u16],
    e: u16,
    c1: u16,
    c2: u16,
    k: i16,
    strip: u16,
) -> i64
    ensures { result ≡ asked_code (ask t.now (InsertEdge e c1 c2 k strip)) }
{
    asked_code(forecasts_ask::ask::ask_insert_edge(t, e, c1, c2, k, strip))
}

// What deleting edge e would do.
#[unsafe(no_mangle)]
pub extern "C" fn planner_ask_delete_edge(t: &[u16], e: u16) -> i64
    ensures { result ≡ asked_code (ask t.now (DeleteEdge e)) }
{
    asked_code(forecasts_ask::ask::ask_delete_edge(t, e))
}

// What turning edge e by an amount would do.
#[unsafe(no_mangle)]
pub extern "C" fn planner_ask_turn_edge(t: &[u16], e: u16, amount: i16) -> i64
    ensures { result ≡ asked_code (ask t.now (TurnEdge e amount)) }
{
    asked_code(forecasts_ask::ask::ask_turn_edge(t, e, amount))
}

// Inserts edge e if ask would give this forecast now. Answers as the plain edit.
#[unsafe(no_mangle)]
pub extern "C" fn planner_commit_insert_edge(
    t: &mut [u16],
    e: u16,
    c1: u16,
    c2: u16,
    k: i16,
    strip: u16,
    forecast: i64,
) -> i64
    ensures { (result ≡ reply_code (commit_reply t.old (InsertEdge e c1 c2 k strip) (forecast_in forecast)))
        × (t.new ≡ committed t.old (InsertEdge e c1 c2 k strip) (forecast_in forecast)) }
{
    reply_code(forecasts_commit::commit::commit_insert_edge(
        t,
        e,
        c1,
        c2,
        k,
        strip,
        forecast_in(forecast),
    ))
}

// Deletes edge e if ask would give this forecast now. Answers as the plain edit.
#[unsafe(no_mangle)]
pub extern "C" fn planner_commit_delete_edge(t: &mut [u16], e: u16, forecast: i64) -> i64
    ensures { (result ≡ reply_code (commit_reply t.old (DeleteEdge e) (forecast_in forecast)))
        × (t.new ≡ committed t.old (DeleteEdge e) (forecast_in forecast)) }
{
    reply_code(forecasts_commit::commit::commit_delete_edge(t, e, forecast_in(forecast)))
}

// Turns edge e by an amount if ask would give this forecast now. Answers as the plain edit.
#[unsafe(no_mangle)]
pub extern "C" fn planner_commit_turn_edge(t: &mut [u16], e: u16, amount: i16, forecast: i64) -> i64
    ensures { (result ≡ reply_code (commit_reply t.old (TurnEdge e amount) (forecast_in forecast)))
        × (t.new ≡ committed t.old (TurnEdge e amount) (forecast_in forecast)) }
{
    reply_code(forecasts_commit::commit::commit_turn_edge(t, e, amount, forecast_in(forecast)))
}

// Writes V, E, F, the number of parts and the Euler number, and answers five.
#[unsafe(no_mangle)]
pub extern "C" fn planner_counts(t: &[u16], out: &mut [i32]) -> i64
    ensures { (result ≡ code_of (counts_answer t.now (length out.old))) × (out.new ≡ counts_out t.now out.old) }
{
    code(surface_calls::call::counts(t, out))
}

// Writes six words for each part, upward: smallest vertex, V, E, F, Euler number, orientable. Answers the number of words.
#[unsafe(no_mangle)]
pub extern "C" fn planner_parts(t: &[u16], out: &mut [i32]) -> i64
    ensures { (result ≡ code_of (parts_answer t.now (length out.old))) × (out.new ≡ parts_out t.now out.old) }
{
    code(surface_calls::call::parts(t, out))
}

// Does the ribbon through the step of dart and type alternate.
#[unsafe(no_mangle)]
pub extern "C" fn planner_alternates(t: &[u16], dart: u16, kind: u16) -> i64
    ensures { result ≡ code_of (alternates_of t.now dart kind) }
{
    code(weave_plain::call::alternates(t, dart, kind))
}

// Is the weave plain.
#[unsafe(no_mangle)]
pub extern "C" fn planner_plain(t: &[u16]) -> i64
    ensures { result ≡ code_of (plain_of t.now) }
{
    code(weave_plain::call::plain(t))
}

// Writes the letters of the ribbon through the step of dart and type, in the order of travel from it.
#[unsafe(no_mangle)]
pub extern "C" fn planner_letters(t: &[u16], dart: u16, kind: u16, out: &mut [u8]) -> i64
    ensures { (result ≡ code_of (letters_of t.now dart kind (length out.old)))
        × (out.new ≡ letters_out t.now dart kind out.old) }
{
    code(weave_letters::call::letters(t, dart, kind, out))
}

// The cut length of the ribbon through the step of dart and type, in sixteenths of a millimetre.
#[unsafe(no_mangle)]
pub extern "C" fn planner_cut_length(t: &[u16], dart: u16, kind: u16) -> i64
    ensures { result ≡ code_of (cut_length_of t.now dart kind) }
{
    code(lengths::length::cut_length(t, dart, kind))
}

// Writes four words for each ribbon, in listing order: its cut length, the metres started, how far the last is unused, its price. Answers the sum of the prices.
#[unsafe(no_mangle)]
pub extern "C" fn planner_price_sheet(t: &[u16], p: u16, m: u16, out: &mut [u32]) -> i64
    ensures { (result ≡ quote_code (sheet_answer t.now p m (length out.old))) × (out.new ≡ sheet_out t.now p m out.old) }
{
    quote_code(prices::call::price_sheet(t, p, m, out))
}

// Writes the float path of the ribbon through the step of dart and type: a word and three floats for each piece. Answers the number of pieces.
#[unsafe(no_mangle)]
pub extern "C" fn planner_float_path(
    t: &[u16],
    dart: u16,
    kind: u16,
    points: &[i32],
    lifts: &[i32],
    forms: &mut [u16],
    coords: &mut [f32],
) -> i64
    ensures { (result ≡ code_of (path_answer t.now dart kind points.now lifts.now (length forms.old) (length coords.old)))
        × (forms.new ≡ forms_out t.now dart kind points.now lifts.now forms.old coords.old)
        × (coords.new ≡ coords_out t.now dart kind points.now lifts.now forms.old coords.old) }
{
    code(floatpath::path::float_path(t, dart, kind, points, lifts, forms, coords))
}

// Writes the whole path of the ribbon through the step of dart and type: a word, three coordinates and three remainders for each piece. Answers the number of pieces.
#[unsafe(no_mangle)]
pub extern "C" fn planner_whole_path(
    t: &[u16],
    dart: u16,
    kind: u16,
    points: &[i32],
    lifts: &[i32],
    forms: &mut [u16],
    coords: &mut [i32],
    remainders: &mut [u16],
) -> i64
    ensures { (result ≡ code_of (whole_answer t.now dart kind points.now lifts.now
        (length forms.old) (length coords.old) (length remainders.old)))
        × (forms.new ≡ whole_forms_out t.now dart kind points.now lifts.now forms.old coords.old remainders.old)
        × (coords.new ≡ whole_coords_out t.now dart kind points.now lifts.now forms.old coords.old remainders.old)
        × (remainders.new ≡ whole_remainders_out t.now dart kind points.now lifts.now
        forms.old coords.old remainders.old) }
{
    code(wholepath::path::whole_path(t, dart, kind, points, lifts, forms, coords, remainders))
}

// One step of the walk reader: dart and type of the step it stands at, then those of its walk's start. Answers 1 where the walk ends at that step, else 0.
#[unsafe(no_mangle)]
pub extern "C" fn planner_walk_step(t: &[u16], reader: &mut Standing, tally: &mut Tally) -> i64
    ensures { (result ≡ (called_of t.now reader.old tally.old).code)
        × (reader.new ≡ (called_of t.now reader.old tally.old).reader)
        × (tally.new ≡ (called_of t.now reader.old tally.old).tally) }
{
    let called = step_call(t, *reader, *tally);
    *reader = called.reader;
    *tally = called.tally;
    called.code
}

// Writes the trial job of a starting number and a number of edges, and answers its number of bytes.
#[unsafe(no_mangle)]
pub extern "C" fn planner_trial_job(start: u32, edges: u32, out: &mut [u8]) -> i64
    ensures { (result ≡ code_of (trial_answer edges (length out.old))) × (out.new ≡ trial_out start edges out.old) }
{
    code(trial_make::call::trial_job(start, edges, out))
}

// Writes the job record of a mark and its arguments, and answers its number of bytes.
#[unsafe(no_mangle)]
pub extern "C" fn planner_job_record(
    mark: u16,
    name: u16,
    c1: u16,
    c2: u16,
    k: i16,
    strip: u16,
    out: &mut [u8],
) -> i64
    ensures { (result ≡ code_of (marked_answer (mark_of mark) name c1 c2 k strip (length out.old)))
        × (out.new ≡ marked_out (mark_of mark) name c1 c2 k strip out.old) }
{
    code(records_write::marked::job_record(mark, name, c1, c2, k, strip, out))
}
