ghost use Rattle.std.specs.Prelude.{◌≡◌, ◌<◌, ◌∷◌, [], None, true, IfOk, IfSome, IfNone, OnErr};
ghost use Rattle.row_machine.specs.facts.Whole.{IsWhole};
ghost use Rattle.row_machine.specs.machine.Rules.{names_broken, standing_broken};
ghost use Rattle.records.specs.declared.commands.What.TheVariants as what;
ghost use Rattle.size_values.specs.Moments.{moment_limit};
ghost use Rattle.core_judging.specs.core_reports.specs.Jobs.{IsReported, IsTaken};
ghost use Rattle.core_judging.specs.core_reports.specs.Waiting.{IsSilent, told_by};
ghost use Rattle.core_rows.specs.Planned.{Follows, IsToDo, IsToStart};
ghost use Rattle.core_rows.specs.Asked.{IsAsked};
ghost use Rattle.record_keeper.specs.Store.{Store};

use crate::cancels::{count_out, stop};
use crate::counted::follow_report;
use core_drafts::Draft;
use core_judging::{
    Totals, Turned, Waiting, begin, commit, commit_start, count, first_pending, judge, judge_claim,
    prepare, prepare_start, queue_event, refused_reply, roll_back, take_report, told_by,
};
use host_model::{HostCall, Report};
use plain_lists::push_reserved;
use record_keeper::Keeper;
use records::{Command, Reply, Untold};
use row_machine::{RowChange, Task};
use row_readings::StateRef;
use rules_tables::cancel_broken;
use size_values::{NoMemory, Seq};
use std::alloc::Global;
use std::marker::Model;

/// The rows of the server, of which the facts hold at all times, what is to be told, and what projects are known to
/// use. Contracts see the state of the row machine with these rows, and the notices that were not yet taken.
#[derive(Drop)]
pub struct Estate {
    draft: Draft,
    untold: Vec<Waiting>,
    totals: Totals,
}

impl Model for Estate {
    ghost use Rattle.core_rows.specs.EstateView.{EstateView};

    ghost Value = { EstateView };

    ghost use Rattle.core_rows.specs.View.{kept, IsEstate};

    ghost view = { kept };

    ghost invariant = { IsEstate };
}

impl Estate {
    /// Rows of which the facts hold, and no notices.
    pub(crate) fn of(alloc: Global, draft: Draft) -> Result<Estate, NoMemory>
        requires whole { IsWhole draft.state }
        requires silent { IsSilent draft.state }
        requires settled { draft.log ≡ [] }
        requires above { draft.backing.greatest < draft.state.operations.next }
        ensures state { IfOk result (λ e. e.state ≡ draft.state) }
        ensures untold { IfOk result (λ e. e.untold ≡ []) }
    {
        let untold = Vec::with_capacity(alloc, 8)?;
        Ok(Estate {
            draft,
            untold,
            totals: Totals::new(alloc),
        })
    }

    /// The rows, to be read.
    pub fn view(&self) -> StateRef<'_>
        ensures state { result ≡ self.now.state }
        ensures whole { IsWhole self.now.state }
    {
        self.draft.view()
    }

    /// Carries out the changes of a command that breaks no rule on names and on what stands in the way. They are made,
    /// judged by the state after them, and committed to the keeper in one call; where a rule is broken, the keeper
    /// fails or memory is refused, they are taken back. What was done is left to be told.
    pub fn change_rows<R: Keeper>(
        &mut self,
        alloc: Global,
        keeper: &mut R,
        command: &Command,
        moment: u64,
        changes: Seq<RowChange>,
        notice: Untold,
    ) -> Reply
        requires quiet { self.old.untold ≡ [] }
        requires planned { IsToDo self.old.state command.now moment changes notice }
        ensures { Follows self.old.state command.now moment self.new.state self.new.untold result (R.store keeper.old)
            (R.store keeper.new) }
    {
        let Ok(ready) = prepare(alloc, &mut self.draft, &changes) else {
            drop(changes);
            drop(notice);
            return Reply::NoMemory;
        };
        self.draft.apply(changes);
        let judged = judge(
            alloc,
            &ready.before,
            &self.draft.view(),
            ready.changes.view(),
        );
        if let Err(why) = judged {
            drop(ready);
            drop(notice);
            return roll_back(&mut self.draft, why);
        }
        let committed = commit(alloc, keeper, &ready.changes);
        drop(ready);
        if let Err(why) = committed {
            drop(notice);
            return roll_back(&mut self.draft, why);
        }
        self.draft.keep_changes();
        self.totals.forget();
        push_reserved(&mut self.untold, Waiting::Whole(notice));
        Reply::Empty
    }

    /// Hands out the first call of the lowest-numbered operation that waits for it, which runs from then on and is left
    /// to be told; or tells that none waits. The moment is in seconds since 1970. It takes no memory.
    pub fn take_job(&mut self, moment: u64) -> Option<(u64, HostCall)>
        requires quiet { self.old.untold ≡ [] }
        requires early { moment < moment_limit }
        ensures { IsTaken self.old.state moment result self.new.state self.new.untold }
    {
        let Some(number) = first_pending(&self.draft.view()) else {
            return None;
        };
        let call = begin(&mut self.draft, number, moment);
        queue_event(&mut self.untold, &self.draft.view(), number, moment);
        Some((number, call))
    }

    /// Takes the report of a call that an operation handed out: the next call is handed out, or the one that takes the
    /// deed back; or the operation ends and is left to be told, after what its success tells. A success commits the
    /// changes of its rows in one call to the keeper; where that fails, or memory is refused before it or in it, the
    /// operation fails and no row changes. Nothing else takes memory. Where no call of the operation is out, nothing
    /// changes. The moment is in seconds since 1970.
    pub fn done_job<R: Keeper>(
        &mut self,
        alloc: Global,
        keeper: &mut R,
        number: u64,
        report: Report,
        moment: u64,
    ) -> Turned
        requires quiet { self.old.untold ≡ [] }
        requires early { moment < moment_limit }
        ensures { IsReported self.old.state number report moment self.new.state self.new.untold result
            (R.store keeper.old) (R.store keeper.new) }
    {
        let counted = count(alloc, &self.draft.view(), number);
        let turned = take_report(
            alloc,
            &mut self.draft,
            &mut self.untold,
            keeper,
            number,
            report,
            moment,
        );
        follow_report(
            &mut self.totals,
            &self.draft.view(),
            number,
            &counted,
            &turned,
        );
        turned
    }

    /// The server is told to close: a worker that finds no job is then told so. It takes no memory.
    pub fn close(&mut self)
        requires quiet { self.old.untold ≡ [] }
        ensures state { self.new.state ≡ record self.old.state { closed = true } }
        ensures untold { self.new.untold ≡ [] }
    {
        self.draft.close();
    }

    /// Begins the background operation of a command that breaks no rule on names and on what stands in the way. The
    /// operation is entered and judged by the state with its claim; where a rule is broken or memory is refused, it is
    /// taken back. Else it holds its share from then on, and its notice is left to be told. The store is not asked.
    pub fn start(&mut self, alloc: Global, command: &Command, moment: u64, work: Task) -> Reply
        requires quiet { self.old.untold ≡ [] }
        requires planned { IsToStart self.old.state command.now moment work }
        ensures { (store : Store)
            → IsAsked self.old.state command.now moment self.new.state self.new.untold result store store }
    {
        let Ok(beginning) = prepare_start(alloc, &mut self.draft, &mut self.totals, &work, moment)
        else {
            drop(work);
            return Reply::NoMemory;
        };
        let number = self.draft.claim(work, moment);
        let judged = judge_claim(alloc, &beginning, &self.draft.view(), command, number);
        if let Err(why) = judged {
            drop(beginning);
            return roll_back(&mut self.draft, why);
        }
        self.totals.grow(
            beginning.project.view(),
            &beginning.share.amounts,
            &beginning.share.on,
        );
        commit_start(&mut self.draft, &mut self.untold, beginning)
    }

    /// Cancels the operation of a number, as a command asks that breaks no rule on names and on what stands in the way:
    /// one that waits ends as cancelled, and its share goes back; one that runs is being cancelled from then on. It is
    /// left to be told. One that cannot be cancelled is refused, and nothing changes. Memory is taken for a refusal
    /// alone. The store is not asked.
    pub fn cancel_operation(
        &mut self,
        alloc: Global,
        command: &Command,
        number: u64,
        moment: u64,
    ) -> Reply
        requires quiet { self.old.untold ≡ [] }
        requires early { moment < moment_limit }
        requires asked { command.now.what ≡ what.Cancel number }
        requires names { names_broken self.old.state command.now ≡ None }
        requires standing { standing_broken self.old.state command.now ≡ None }
        ensures { (store : Store) → Follows self.old.state command.now moment self.new.state self.new.untold result
            store store }
    {
        let judged = cancel_broken(alloc, &self.draft.view(), &command.what);
        if let Err(why) = judged {
            return refused_reply(why);
        }
        count_out(&mut self.totals, &self.draft.view(), number);
        stop(&mut self.draft, &mut self.untold, number, moment);
        Reply::Empty
    }

    /// Hands out the first notice that was not yet taken.
    pub fn take_event(&mut self, alloc: Global) -> Result<Option<Untold>, NoMemory>
        ensures some { IfOk result (λ taken. IfSome taken (λ notice. self.old.untold ≡ notice ∷ self.new.untold)) }
        ensures none { IfOk result (λ taken. IfNone taken ((self.old.untold ≡ []) × (self.new.untold ≡ []))) }
        ensures error { OnErr result (self.new.untold ≡ self.old.untold) }
        ensures state { self.new.state ≡ self.old.state }
    {
        if self.untold.is_empty() {
            return Ok(None);
        }
        let notice = told_by(alloc, &self.draft.view(), &self.untold[0])?;
        self.untold.remove(0);
        Ok(Some(notice))
    }

    /// Hands out the first notice that was not yet taken, in the form in which it waits: what it tells of an operation
    /// goes with the operation as it is kept. It takes no memory.
    pub fn take_waiting(&mut self) -> Option<Waiting>
        ensures some { IfSome result (λ waiting. self.old.untold
            ≡ told_by self.old.state.operations waiting ∷ self.new.untold) }
        ensures none { IfNone result ((self.old.untold ≡ []) × (self.new.untold ≡ [])) }
        ensures state { self.new.state ≡ self.old.state }
        ensures silent { IsSilent self.new.state }
    {
        if self.untold.is_empty() {
            return None;
        }
        Some(self.untold.remove(0))
    }
}
