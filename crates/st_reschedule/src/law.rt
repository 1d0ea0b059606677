ghost use Rattle.std.specs.Prelude.{◌≡◌, ℕ, List, [], ◌∷◌, codes, length, Some, None};
ghost use Rattle.st_law.specs.Inputs.{IsStartable};
ghost use Rattle.st_law.specs.Machine.{run};
ghost use Rattle.st_law.specs.Schedules.{Choices, played};
ghost use Rattle.st_law.specs.declared.input.Input.{Input};
ghost use Rattle.st_law.specs.declared.input.ReadSchedule.{ReadSchedule};
ghost use Rattle.st_law.specs.declared.input.TheConstants.{MOST_TIMES};
ghost use Rattle.st_law.specs.declared.input.What.TheVariants.{Choose, Rest};
ghost use Rattle.st_report.specs.ScheduleText.{printed_schedule, schedule_text};
ghost use Rattle.st_reschedule.specs.Asked.{HaveSmallNumbers, bad_at, choices_asked, asked_line, schedule_of};
ghost use Rattle.st_schedule.specs.Schedule.{schedule_in};
ghost use Rattle.st_trace.specs.declared.entry.Choice.{Choice};
ghost use Rattle.st_trace.specs.declared.entry.Choice.TheVariants.{Thread, Worker, Operator};

/// The text that is printed of choices is read again as the lines that were printed, without a bad line. These lines ask for exactly the
/// choices, in order, if the numbers of their threads and workers have 32 bits, as those of each run have. So if choices were played, the
/// text that is printed of them makes the same run.
pub fn a_printed_schedule_is_read_again()
    ensures lines { (choices : List Choice) → HaveSmallNumbers choices → schedule_in (schedule_text choices) ≡ printed_schedule choices }
    ensures choices { (choices : List Choice) → HaveSmallNumbers choices → choices_asked (schedule_in (schedule_text choices)) ≡ Some choices }
    ensures numbers { (input : Input) → IsStartable input → (choices : List Choice) → length (run input choices) ≡ length choices → HaveSmallNumbers choices }
    ensures enabled { (input : Input) → IsStartable input → (choices : List Choice) → length (run input choices) ≡ length choices → played input (schedule_in (schedule_text choices)) ≡ Choices choices }
    ensures played { (input : Input) → IsStartable input → (schedule : ReadSchedule) (choices : List Choice) → played input schedule ≡ Choices choices → played input (schedule_in (schedule_text choices)) ≡ Choices choices }
{}

/// What a line of a schedule says: a thread or a worker by its number, the operator, each once or up to 1,000,000 times, or the rest, once.
pub fn what_a_line_of_a_schedule_says()
    ensures most { MOST_TIMES ≡ 1000000 }
    ensures thread { schedule_in (codes "thread 3\nthread 3 1000000\n") ≡ schedule_of (asked_line (Choose (Thread 3)) 1 1 ∷ asked_line (Choose (Thread 3)) 1000000 2 ∷ []) }
    ensures worker { schedule_in (codes "worker 2\nworker 2 7\n") ≡ schedule_of (asked_line (Choose (Worker 2)) 1 1 ∷ asked_line (Choose (Worker 2)) 7 2 ∷ []) }
    ensures operator { schedule_in (codes "operator\n\noperator 1\noperator 1000000\n") ≡ schedule_of (asked_line (Choose Operator) 1 1 ∷ asked_line (Choose Operator) 1 3 ∷ asked_line (Choose Operator) 1000000 4 ∷ []) }
    ensures rest { schedule_in (codes "rest\n") ≡ schedule_of (asked_line Rest 1 1 ∷ []) }
    ensures none { schedule_in (codes "operator 0\n") ≡ bad_at 1 }
    ensures more { schedule_in (codes "operator 1000001\n") ≡ bad_at 1 }
{}
