//! Messages delivered.
ghost use Rattle.std.specs.Prelude.{◌≡◌, ◌<◌, ℕ, Some, IfOk, OnErr, ◌≤◌, ◌+◌, slice_get, length, take};
ghost use Rattle.tau_value.specs.declared.limits.TheConstants.{STEP_LIMIT};
ghost use Rattle.tau_trace.specs.Run.{len};
ghost use Rattle.tau_script.specs.Scripts.{NoneDue};
ghost use Rattle.tau_rules.specs.Answers.{IsDelivered};

use crate::Scripted;
use crate::letters::notice_of;
use crate::making::make_receipt;
use std::alloc::AllocError;
use tau_knowledge::Knowledge;
use tau_rules::Delivered;

impl<'p, K: Knowledge + Drop> Scripted<'p, K> {
    /// Delivers one of the deliverable messages, counted from 0 by ascending number (docs/rules.md, "Steps"). No step of the script
    /// is due. The error is want of memory, and nothing is different then.
    pub fn deliver(&mut self, number: usize) -> Result<Delivered<'p>, AllocError>
        requires few { len self.old.system.run < STEP_LIMIT }
        requires none_due { NoneDue self.old.system.program.script self.old.system.run (len self.old.system.run) }
        requires deliverable { number < length self.old.messages }
        ensures ok { IfOk result (λ d. (m : ℕ) → slice_get self.old.messages number ≡ Some m → IsDelivered self.old.system self.new.system m d) }
        ensures turns { take (length self.old.turns) self.new.turns ≡ self.old.turns }
        ensures one { length self.new.turns ≤ length self.old.turns + 1 }
        ensures err { OnErr result (self.new ≡ self.old) }
    {
        let Some(letter) = self.index.mailboxes.deliverable(number) else {
            unreachable!()
        };
        let notice = notice_of(self.legal.trace(), letter);
        self.index.reserve_for(notice)?;
        self.index.reserve_turn()?;
        let place = self.legal.trace().len();
        let delivered = make_receipt(&mut self.legal, letter)?;
        self.index.receive(letter, notice, place, &delivered);
        Ok(delivered)
    }
}
