//! What the program is called on.

ghost use Rattle.std.specs.Prelude.{◌≡◌, false, None, IfOk, IfErr};
ghost use Rattle.dag_main_run.specs.Sites.{Own, own_somewhere, IsKnownTo};
ghost use Rattle.dagrun.specs.Answered.{World, IsFolderFault};

use dag_main_check::RunFault;
use dag_main_files::{Folder, SystemFolder, refused};
use dag_main_run::Site;
use std::env;
use std::fs::File;
use std::process::Processes;
use std::rt::{Env, Files};
use std::time::Clock;

/// What the program is called on: the files of the folder in which it was called, what is on standard input, the disks
/// of journals and of rescue files in that folder, and children.
///
/// What is said of bytes, of crashes and of children is said of an honest host.
pub trait Host {
    /// The folder in which the program was called.
    type Here: Site + Drop;

    /// What it holds.
    ghost world: { Self → World };

    /// What it knows of its own disks and children.
    ghost own: { Self → Own Self.Here.Journal Self.Here.Rescue };

    /// That it doesn't say in which folder the program was called.
    ghost is_lost: { Self → Type 0 };

    /// The premise of the program: it answers what it holds, and nobody changes that meanwhile; its disks keep what was synced; and
    /// its children are those that it is asked to start.
    ghost honest: { Self → Type 0 };

    /// The folder in which the program was called; with `trusts_owner` the owner of the files that stand beside a DAG
    /// file there is trusted, as `SystemFolder` says it.
    ///
    /// # Errors
    /// `FileRefused` with `.`, where the system doesn't tell which it is; `Memory`.
    fn here(&self, trusts_owner: bool) -> Result<Self::Here, RunFault>
        ensures honest { honest self.now → IfOk result (λ here. Self.Here.honest here) }
        ensures back { IfOk result (λ here. Self.Here.honest here → honest self.now) }
        ensures holds { honest self.now → IfOk result (λ here. Self.Here.holds here ≡ (world self.now).holds) }
        ensures has { honest self.now → IfOk result (λ here. Self.Here.has here ≡ (world self.now).has) }
        ensures own { IfOk result (λ here. IsKnownTo (Self.Here.own here) (own self.now)) }
        ensures unstreamed { IfOk result (λ here. ¬ (Self.Here.streams here)) }
        ensures refused { IfErr result (IsFolderFault (is_lost self.now)) };

    /// The same with standard input where `-` is named, for what is read alone.
    fn inputs(&self) -> Self::Here
        ensures honest { honest self.now → Self.Here.honest result }
        ensures holds { honest self.now → Self.Here.holds result ≡ (world self.now).inputs };
}

/// The system. That it is honest is a premise, which nothing here proves.
#[derive(Clone, Copy)]
pub struct SystemHost<'a, R> {
    /// The system.
    pub rt: &'a R,
}

impl<'a, R: Processes + Files<File = File> + Clock + Env + Input + AllocGlobal + Copy + Drop> Host
    for SystemHost<'a, R> {
    type Here = SystemFolder<'a, R>;

    ghost world = { λ _. record { holds = λ _. None; has = λ _. false; inputs = λ _. None } };

    ghost own = { λ _. own_somewhere };

    ghost is_lost = { λ _. Unit {0} };

    ghost honest = { λ _. ⊥ };

    fn here(&self, trusts_owner: bool) -> Result<SystemFolder<'a, R>, RunFault> {
        let rt = self.rt;
        match env::current_dir(rt) {
            Ok(folder) => Ok(SystemFolder {
                rt,
                seat: String::from_str(rt.alloc(), folder.as_str())?,
                has_input: false,
                trusts_owner,
            }),
            Err(error) => Err(refused(rt.alloc(), ".", &error)),
        }
    }

    fn inputs(&self) -> SystemFolder<'a, R> {
        SystemFolder {
            rt: self.rt,
            seat: String::new(self.rt.alloc()),
            has_input: true,
            trusts_owner: false,
        }
    }
}
