// How many drawings a run makes, the number of a drawing, and whether a number is live.
ghost use Rattle.std.specs.Prelude.{◌≡◌, ◌↔◌, true, ◌≤◌, ◌+◌, ◌*◌, length, sum_by, count_by};
ghost use Rattle.st_law.specs.Inputs.{IsStartable};
ghost use Rattle.st_law.specs.Schedules.{is_renewing_instruction};
ghost use Rattle.st_reached.specs.Reached.{most_numbers};
ghost use Rattle.st_kernel.specs.Kernel.{live_number, state_in, IsLiveNumber};

use crate::kernel::Kernel;
use st_base::{Drawing, Seq};
use st_trace::{Instr, ThreadRow};

// Whether an instruction renews messages: a call that sets ids, or a reload.
fn renews(instr: &Instr) -> bool
    ensures { result ≡ is_renewing_instruction instr.now }
{
    match instr {
        Instr::Call(call, _) => call.sets_ids(),
        Instr::Store(_, _) => false,
        Instr::Fork(_) => false,
        Instr::Reload(_) => true,
    }
}

// The most drawings that the instructions of a body draw: one each, and 64 more for each call that sets ids and each reload.
fn most_of_body(body: &[Instr]) -> u32
    requires { length body.now ≤ 4096 }
    ensures most { result ≡ length body.now + 64 * count_by is_renewing_instruction body.now }
    ensures few { result ≤ 65 * length body.now }
{
    let renewing = body.iter().filter(|instr| renews(instr)).count();
    body.len() as u32 + 64 * renewing as u32
}

// The most drawings that all instructions of a script draw.
fn most_of_script(threads: &[ThreadRow]) -> u32
    requires { sum_by (λ row. length row.body) threads.now ≤ 4096 }
    ensures { result ≡ sum_by (λ row. length row.body) threads.now + 64 * sum_by (λ row. count_by is_renewing_instruction row.body) threads.now }
{
    let mut most = 0;
    for row in threads {
        most += most_of_body(row.body.as_slice());
    }
    most
}

impl<'a> Kernel<'a> {
    /// The most drawings that the run can make, from its beginning to its end. It takes no memory.
    pub fn most_messages(&self) -> u32
        ensures { result ≡ most_numbers self.now.input }
    {
        most_of_script(self.machine.input().start.threads.as_slice())
    }

    /// How many drawings were made so far. It takes no memory.
    pub fn drawings(&self) -> u64
        ensures drawn { result ≡ (state_in self.now).posted }
        ensures most { result ≤ most_numbers self.now.input }
        ensures startable { IsStartable self.now.input }
    {
        let machine = self.machine.view();
        machine.workers.next_drawing() - 1
    }

    /// The number of a live drawing; none iff the drawing isn't live. It takes no memory.
    pub fn seq(&self, drawing: Drawing) -> Option<Seq>
        ensures { result ≡ live_number self.now drawing }
    {
        let machine = self.machine.view();
        match machine.workers.thread(drawing) {
            Some(_) => Some(machine.workers.seq(drawing)),
            None => None,
        }
    }

    /// Whether a number is live. It takes no memory.
    pub fn live(&self, seq: Seq) -> bool
        ensures { (result ≡ true) ↔ IsLiveNumber self.now seq }
    {
        self.holder(seq).is_some()
    }
}
