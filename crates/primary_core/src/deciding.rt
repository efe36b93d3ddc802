//! What commands come to: each is judged against the rows, before anything is written.

ghost use Rattle.std.specs.Prelude.{◌≡◌, true, false, Err, IfErr, IfOk, Ok, Some, length, option_map};
ghost use Rattle.command_plans.specs.Given.{IsAnswer, IsApplied, IsChange};
ghost use Rattle.command_plans.specs.declared.planned.Planned.TheVariants.{Answer as Answers, Change as Changes};
ghost use Rattle.kadm_commands.specs.Commands.{IsCommand};
ghost use Rattle.kadm_commands.specs.declared.replies.Reply.{Reply as Replies};
ghost use Rattle.kadm_commands.specs.declared.replies.Reply.TheVariants.{Refused};
ghost use Rattle.performed_plans.specs.Ready.{is_planned};
ghost use Rattle.kdb_base.specs.declared.outcomes.Halt.{Halt as Halts};
ghost use Rattle.kdb_base.specs.declared.outcomes.Halt.TheVariants.{MemoryOut as IsMemoryOut};
ghost use Rattle.kdb_base.specs.declared.outcomes.Refusal.{Refusal as Refuses};
ghost use Rattle.kdb_base.specs.declared.outcomes.Refusal.TheVariants.{Closed};
ghost use Rattle.kdb_base.specs.declared.outcomes.Stop.TheVariants as stops;
ghost use Rattle.kdb_histories.specs.Seen.{entry_point};
ghost use Rattle.kdb_model.specs.Calls.{call_of};
ghost use Rattle.kdb_model.specs.Refusals.{refusal};
ghost use Rattle.kdb_plain.specs.declared.states.State.{State};
ghost use Rattle.mkey_admin.specs.Plans.{IsMasterChange, is_master_command};
ghost use Rattle.mkey_admin.specs.declared.planned.MasterChange.{MasterChange as MasterChanges};
ghost use Rattle.mkey_admin.specs.declared.planned.MasterPlan.TheVariants as masters;
ghost use Rattle.primary_core.specs.Deciding.{Decides, change_of, decided_as, is_judged};
ghost use Rattle.primary_core.specs.Deciding.{masters_decided_as, point_told, reply_of};
ghost use Rattle.primary_core.specs.Opened.{HasState, IsDecided, MayMake, command_ask, place_of};
ghost use Rattle.primary_core.specs.declared.decided.Decided.TheVariants.{Answer, Change};
ghost use Rattle.primary_core.specs.declared.decided.DecidedChange.{DecidedChange as ToMake};
ghost use Rattle.princ_rows.specs.declared.entries.Op.{Op as Operation};

use crate::changing::{decide_change, decide_master_change};
use crate::decided::Decided;
use crate::laws::{
    changes_end_with_time, master_changes_end_with_time, planned_commands_keep_the_masters,
};
use crate::moments::{holds_moment, holds_point};
use crate::primary::Primary;
use acl_text::Acl;
use kadm_commands::{Command, Reply};
use kdb_base::{Halt, Refusal, Stop, Time};
use kdb_plain::laws::valid_later;
use mkey_admin::MasterPlan;
use performed_plans::laws::{master_plans_are_performed, plans_are_performed};
use performed_plans::{Planned, Ready, View, plan};
use princ_name::Name;
use std::alloc::Global;
// What is answered where the judge stopped: a refusal is told.
fn answered(stop: Stop) -> Result<Decided, Halt>
    ensures refused { (why : Refuses) → stop ≡ stops.Refused why → result ≡ Ok (Answer (Refused why)) }
    ensures halted { (halt : Halts) → stop ≡ stops.Halt halt → result ≡ Err halt }
{
    match stop {
        Stop::Refused(why) => Ok(Decided::Answer(Reply::Refused(why))),
        Stop::Halt(halt) => Err(halt),
    }
}

/// Whether a command is one of master keys.
fn is_master_command(command: &Command) -> bool
    ensures { result ≡ is_master_command command.now }
{
    match command {
        Command::AddMaster(_)
        | Command::UseMaster(_)
        | Command::ListMasters
        | Command::PurgeMasters => true,
        Command::AddPrinc(_)
        | Command::ModPrinc(_)
        | Command::ChangeKeys(_)
        | Command::RenPrinc(_)
        | Command::DelPrinc(_)
        | Command::GetPrinc(_)
        | Command::ListPrincs(_)
        | Command::PurgeKeys(_)
        | Command::SetString(_)
        | Command::DelString(_)
        | Command::GetStrings(_)
        | Command::Extract(_)
        | Command::AddPolicy(_)
        | Command::ModPolicy(_)
        | Command::DelPolicy(_)
        | Command::GetPolicy(_)
        | Command::ListPolicies
        | Command::GetPrivs
        | Command::RekeyPrincs(_)
        | Command::Stash
        | Command::Dump => false,
    }
}

impl Primary {
    // Judges a command that rows alone decide.
    fn judge(
        &self,
        alloc: Global,
        client: &Name,
        acl: Option<&Acl>,
        ready: &Ready,
        now: Time,
        random: &[u8],
    ) -> Result<Planned, Stop>
        requires command { IsCommand self.now.kept.realm ready.now.command }
        requires planned { is_planned ready.now.command ≡ true }
        requires random { length random.now ≡ 2048 }
        ensures refused { (s : State) (why : Refuses) → HasState self.now s → result ≡ Err (stops.Refused why)
            → refusal s (call_of client.now (option_map (λ acl. acl.now) acl.entry) ready.now.command now random.now
            false) ≡ Some why }
        ensures answer { (s : State) (reply : Replies) → HasState self.now s → result ≡ Ok (Answers reply) → IsAnswer s
            (call_of client.now (option_map (λ acl. acl.now) acl.entry) ready.now.command now random.now false) reply }
        ensures change { (s : State) (op : Operation) → HasState self.now s
            → result ≡ Ok (Changes op) → IsChange self.now.kept.rows s
            (call_of client.now (option_map (λ acl. acl.now) acl.entry) ready.now.command now random.now false) op }
        ensures applies { (op : Operation) → result ≡ Ok (Changes op) → IsApplied self.now.kept.rows op }
        ensures halted { (halt : Halts) → result ≡ Err (stops.Halt halt) → halt ≡ IsMemoryOut }
    {
        valid_later();
        let view = View {
            rows: self.database.rows(),
            masters: &self.masters,
            realm: self.database.realm().as_slice(),
        };
        // A moment has microseconds of one second.
        let _micros = now.usecs();
        let moment = self.database.point().time.later(now);
        plan(alloc, ready, &view, client, acl, moment, random)
    }

    // Judges a command of master keys.
    fn judge_masters(
        &self,
        alloc: Global,
        client: &Name,
        acl: Option<&Acl>,
        command: &Command,
        now: Time,
        random: &[u8],
    ) -> Result<MasterPlan, Stop>
        requires command { IsCommand self.now.kept.realm command.now }
        requires masters { is_master_command command.now ≡ true }
        requires random { length random.now ≡ 2048 }
        ensures refused { (s : State) (why : Refuses) → HasState self.now s → result ≡ Err (stops.Refused why)
            → refusal s (call_of client.now (option_map (λ acl. acl.now) acl.entry) command.now now random.now false)
            ≡ Some why }
        ensures answer { (s : State) (reply : Replies)
            → HasState self.now s → result ≡ Ok (masters.Answer reply) → IsAnswer s
            (call_of client.now (option_map (λ acl. acl.now) acl.entry) command.now now random.now false) reply }
        ensures change { (s : State) (c : MasterChanges) → HasState self.now s
            → result ≡ Ok (masters.Change c) → IsMasterChange self.now.kept.rows s
            (call_of client.now (option_map (λ acl. acl.now) acl.entry) command.now now random.now false) c }
        ensures applies { (c : MasterChanges) → result ≡ Ok (masters.Change c) → IsApplied self.now.kept.rows c.op }
        ensures halted { (halt : Halts) → result ≡ Err (stops.Halt halt) → halt ≡ IsMemoryOut }
    {
        valid_later();
        let view = View {
            rows: self.database.rows(),
            masters: &self.masters,
            realm: self.database.realm().as_slice(),
        };
        // A moment has microseconds of one second.
        let _micros = now.usecs();
        let moment = self.database.point().time.later(now);
        mkey_admin::plan(alloc, command, &view, client, acl, moment, random)
    }

    // What a plan comes to: a change gets its point, or is refused where no later time is left.
    fn decided(&self, planned: Planned, now: Time) -> Decided
        requires { (op : Operation) → planned ≡ Changes op → IsApplied self.now.kept.rows op }
        ensures { result ≡ decided_as now planned (place_of self.now) }
    {
        match planned {
            Planned::Answer(reply) => Decided::Answer(reply),
            Planned::Change(op) => decide_change(&self.database, op, now),
        }
    }

    // The same of a plan of master keys.
    fn masters_decided(&self, planned: MasterPlan, now: Time) -> Decided
        requires { (c : MasterChanges) → planned ≡ masters.Change c → IsApplied self.now.kept.rows c.op }
        ensures { result ≡ masters_decided_as now planned (place_of self.now) }
    {
        match planned {
            MasterPlan::Answer(reply) => Decided::Answer(reply),
            MasterPlan::Change(change) => decide_master_change(&self.database, change, now),
        }
    }

    // Decides a command that rows alone decide.
    fn decide_rows(
        &self,
        alloc: Global,
        client: &Name,
        acl: Option<&Acl>,
        ready: &Ready,
        now: Time,
        random: &[u8],
    ) -> Result<Decided, Halt>
        requires command { IsCommand self.now.kept.realm ready.now.command }
        requires planned { is_planned ready.now.command ≡ true }
        requires random { length random.now ≡ 2048 }
        ensures decided { IfOk result (λ d. Decides self.now
            (command_ask client.now (option_map (λ acl. acl.now) acl.entry) ready.now.command now random.now) now d) }
        ensures halted { IfErr result (λ halt. halt ≡ IsMemoryOut) }
    {
        plans_are_performed();
        changes_end_with_time();
        planned_commands_keep_the_masters();
        self.holds_opened();
        holds_moment(now);
        holds_point(self.point());
        match self.judge(alloc, client, acl, ready, now, random) {
            Ok(planned) => Ok(self.decided(planned, now)),
            Err(stop) => answered(stop),
        }
    }

    // Decides a command of master keys.
    fn decide_masters(
        &self,
        alloc: Global,
        client: &Name,
        acl: Option<&Acl>,
        command: &Command,
        now: Time,
        random: &[u8],
    ) -> Result<Decided, Halt>
        requires command { IsCommand self.now.kept.realm command.now }
        requires masters { is_master_command command.now ≡ true }
        requires random { length random.now ≡ 2048 }
        ensures decided { IfOk result (λ d. Decides self.now
            (command_ask client.now (option_map (λ acl. acl.now) acl.entry) command.now now random.now) now d) }
        ensures halted { IfErr result (λ halt. halt ≡ IsMemoryOut) }
    {
        plans_are_performed();
        master_plans_are_performed();
        master_changes_end_with_time();
        self.holds_opened();
        holds_moment(now);
        holds_point(self.point());
        match self.judge_masters(alloc, client, acl, command, now, random) {
            Ok(planned) => Ok(self.masters_decided(planned, now)),
            Err(stop) => answered(stop),
        }
    }

    /// What a command comes to: an answer, or a change that `make` is to make, with the answer to it, which tells the
    /// change's point. Nothing is changed, so that the answer can be printed before the change is made. After a fault
    /// of the disk every command is refused by `Closed`.
    ///
    /// # Errors
    ///
    /// `MemoryOut` where memory is wanted and not given.
    pub fn decide(
        &self,
        alloc: Global,
        client: &Name,
        acl: Option<&Acl>,
        ready: &Ready,
        now: Time,
        random: &[u8],
    ) -> Result<Decided, Halt>
        requires command { IsCommand self.now.kept.realm ready.now.command }
        requires judged { is_judged ready.now.command ≡ true }
        requires random { length random.now ≡ 2048 }
        ensures decided { self.now.kept.broken ≡ false → IfOk result (λ d. IsDecided self.now (command_ask client.now
            (option_map (λ acl. acl.now) acl.entry) ready.now.command now random.now) (reply_of d) (change_of d)) }
        ensures may { (change : ToMake) (reply : Replies) → result ≡ Ok (Change change reply)
            → MayMake self.now now change }
        ensures point { (change : ToMake) (reply : Replies) → result ≡ Ok (Change change reply)
            → point_told reply ≡ Some (entry_point now change.op (place_of self.now)) }
        ensures closed { self.now.kept.broken ≡ true → result ≡ Ok (Answer (Refused Closed)) }
        ensures halted { IfErr result (λ halt. halt ≡ IsMemoryOut) }
    {
        if self.is_closed() {
            return Ok(Decided::Answer(Reply::Refused(Refusal::Closed)));
        }
        let command = ready.command();
        if is_master_command(command) {
            return self.decide_masters(alloc, client, acl, command, now, random);
        }
        self.decide_rows(alloc, client, acl, ready, now, random)
    }
}
