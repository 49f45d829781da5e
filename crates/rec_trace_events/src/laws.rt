//! Laws of trace events: what a viewer reads in their JSON. The functions do nothing: their
//! contracts are what they are for.
ghost use Rattle.std.specs.Prelude.{◌≡◌, ℕ, ℤ, Bool, List, [], ◌∷◌, Option, None, Some, codes, map};
ghost use Rattle.serde_json.specs.Data.{Data};
ghost use Rattle.rec_events.specs.declared.instances.OwnedTestInstanceId.{OwnedTestInstanceId};
ghost use Rattle.rec_events.specs.declared.instances.RetryData.{RetryData};
ghost use Rattle.rec_events.specs.declared.instances.StressIndexSummary.{StressIndexSummary};
ghost use Rattle.rec_events.specs.declared.reporting.CancelReason.{CancelReason};
ghost use Rattle.rec_events.specs.Times.{Span};
ghost use Rattle.rec_trace_events.specs.Args.{retry_begin_args, slow_test_args, test_begin_args};
ghost use Rattle.rec_trace_events.specs.declared.counts.RunningCounts.{RunningCounts};
ghost use Rattle.rec_trace_events.specs.declared.counts.TestCounts.{TestCounts};
ghost use Rattle.rec_trace_events.specs.declared.instants.RunMark.TheVariants as marks;
ghost use Rattle.rec_trace_events.specs.declared.instants.RunMark.{RunMark};
ghost use Rattle.rec_trace_events.specs.declared.rows.Category.TheVariants as categories;
ghost use Rattle.rec_trace_events.specs.declared.rows.Category.{Category};
ghost use Rattle.rec_trace_events.specs.declared.rows.Row.{Row};
ghost use Rattle.rec_trace_events.specs.ReadEvents.{args_at, arrow_read, count_in_args};
ghost use Rattle.rec_trace_events.specs.ReadEvents.{counter_read, event_read, metadata_read};
ghost use Rattle.rec_trace_events.specs.ReadEvents.{plain_read, test_in, text_in_args};
ghost use Rattle.rec_trace_events.specs.TraceEvents.{arrow_finish, arrow_start, begin_event};
ghost use Rattle.rec_trace_events.specs.TraceEvents.{category_text, concurrency_event, end_event};
ghost use Rattle.rec_trace_events.specs.TraceEvents.{mark_event, mark_name, process_metadata};
ghost use Rattle.rec_trace_events.specs.TraceEvents.{process_row, results_event, run_row};
ghost use Rattle.rec_trace_events.specs.TraceEvents.{slow_event, thread_metadata};

/// States that the begin and the end of a slice are read as such, with their name, category,
/// row, instant and args.
pub fn slices_are_read()
    ensures begins { (name : List ℕ) (category : Category) (row : Row) (at : ℤ)
        (args : Option Data)
        → event_read (begin_event name category row at args)
        ≡ Some (plain_read (codes "B") name (category_text category) row at) }
    ensures begin_args { (name : List ℕ) (category : Category) (row : Row) (at : ℤ)
        (args : Option Data)
        → args_at (begin_event name category row at args) ≡ args }
    ensures ends { (name : List ℕ) (category : Category) (row : Row) (at : ℤ)
        (args : Option Data)
        → event_read (end_event name category row at args)
        ≡ Some (plain_read (codes "E") name (category_text category) row at) }
    ensures end_args { (name : List ℕ) (category : Category) (row : Row) (at : ℤ)
        (args : Option Data)
        → args_at (end_event name category row at args) ≡ args }
{}

/// States how each category is written.
pub fn categories_are_read()
    ensures run { category_text categories.Run ≡ codes "run" }
    ensures stress { category_text categories.Stress ≡ codes "stress" }
    ensures setup_script { category_text categories.SetupScript ≡ codes "setup-script" }
    ensures test { category_text categories.Test ≡ codes "test" }
{}

/// States that the metadata of a process and of a row are read with the name, and with the place
/// among others, which is the number.
pub fn names_are_read()
    ensures process { (pid : ℕ) (name : List ℕ)
        → map event_read (process_metadata pid name)
        ≡ Some (metadata_read (codes "process_name") (process_row pid))
        ∷ Some (metadata_read (codes "process_sort_index") (process_row pid))
        ∷ [] }
    ensures process_name { (pid : ℕ) (name : List ℕ)
        → map (text_in_args (codes "name")) (process_metadata pid name) ≡ Some name ∷ None ∷ [] }
    ensures process_place { (pid : ℕ) (name : List ℕ)
        → map (count_in_args (codes "sort_index")) (process_metadata pid name)
        ≡ None ∷ Some pid ∷ [] }
    ensures row { (row : Row) (name : List ℕ)
        → map event_read (thread_metadata row name)
        ≡ Some (metadata_read (codes "thread_name") row)
        ∷ Some (metadata_read (codes "thread_sort_index") row)
        ∷ [] }
    ensures row_name { (row : Row) (name : List ℕ)
        → map (text_in_args (codes "name")) (thread_metadata row name) ≡ Some name ∷ None ∷ [] }
    ensures row_place { (row : Row) (name : List ℕ)
        → map (count_in_args (codes "sort_index")) (thread_metadata row name)
        ≡ None ∷ Some row.tid ∷ [] }
{}

/// States that counters are read as such, with what they count.
pub fn counters_are_read()
    ensures running { (counts : RunningCounts) (at : ℤ)
        → event_read (concurrency_event counts at) ≡ Some (counter_read (codes "concurrency") at) }
    ensures running_counts { (counts : RunningCounts) (at : ℤ)
        → (count_in_args (codes "running_tests") (concurrency_event counts at) ≡ Some counts.tests)
        × (count_in_args (codes "running_scripts") (concurrency_event counts at)
        ≡ Some counts.scripts) }
    ensures results { (counts : TestCounts) (at : ℤ)
        → event_read (results_event counts at) ≡ Some (counter_read (codes "test results") at) }
    ensures results_counts { (counts : TestCounts) (at : ℤ)
        → (count_in_args (codes "passed") (results_event counts at) ≡ Some counts.passed)
        × (count_in_args (codes "flaky") (results_event counts at) ≡ Some counts.flaky)
        × (count_in_args (codes "failed") (results_event counts at) ≡ Some counts.failed) }
{}

/// States that the marks of the run, and what is slow, are read as instants,
/// with what runs then or with their args.
pub fn instants_are_read()
    ensures mark { (mark : RunMark) (counts : RunningCounts) (at : ℤ)
        → event_read (mark_event mark counts at)
        ≡ Some (plain_read (codes "i") (mark_name mark) (codes "run") run_row at) }
    ensures mark_counts { (mark : RunMark) (counts : RunningCounts) (at : ℤ)
        → (count_in_args (codes "running") (mark_event mark counts at) ≡ Some counts.tests)
        × (count_in_args (codes "setup_scripts_running") (mark_event mark counts at)
        ≡ Some counts.scripts) }
    ensures cancelled { (reason : CancelReason)
        → mark_name (marks.Cancelled reason) ≡ codes "cancel" }
    ensures paused { mark_name marks.Paused ≡ codes "paused" }
    ensures continued { mark_name marks.Continued ≡ codes "continued" }
    ensures slow { (category : Category) (row : Row) (at : ℤ) (args : Data)
        → event_read (slow_event category row at args)
        ≡ Some (plain_read (codes "i") (codes "slow") (category_text category) row at) }
    ensures slow_args { (category : Category) (row : Row) (at : ℤ) (args : Data)
        → args_at (slow_event category row at args) ≡ Some args }
{}

/// States that the start and the finish of an arrow are read as such, with their row,
/// instant and number.
pub fn arrows_are_read()
    ensures starts { (row : Row) (at : ℤ) (number : ℕ)
        → event_read (arrow_start row at number) ≡ Some (arrow_read (codes "s") row at number) }
    ensures finishes { (row : Row) (at : ℤ) (number : ℕ)
        → event_read (arrow_finish row at number) ≡ Some (arrow_read (codes "f") row at number) }
{}

/// States that the args of the begin of an attempt, and of a slow test, name the test.
pub fn tests_are_read()
    ensures begin { (test : OwnedTestInstanceId) (command_line : List (List ℕ))
        → test_in (test_begin_args test command_line) ≡ Some (test.binary_id, test.test_name) }
    ensures retry { (test : OwnedTestInstanceId) (retry_data : RetryData)
        (command_line : List (List ℕ))
        → test_in (retry_begin_args test retry_data command_line)
        ≡ Some (test.binary_id, test.test_name) }
    ensures slow { (test : OwnedTestInstanceId) (index : Option StressIndexSummary)
        (retry_data : RetryData) (elapsed : Span) (will_terminate : Bool)
        → test_in (slow_test_args test index retry_data elapsed will_terminate)
        ≡ Some (test.binary_id, test.test_name) }
{}
