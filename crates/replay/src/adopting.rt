//! A master that goes on with what a log stands for.

ghost use Rattle.std.specs.Prelude.{◌≡◌, ◌<◌, ◌≤◌, ℕ, [], ◌∷◌, None, IfOk, IfErr, OnOk};
ghost use Rattle.entry.specs.View.{shown_object};
ghost use Rattle.driving.specs.master_core.master_state.Config.{config_fault};
ghost use Rattle.driving.specs.master_core.master_state.Loading.{restored_data, IsNewObject};
ghost use Rattle.driving.specs.master.Registry.{IsUnraised};
ghost use Rattle.driving.specs.master.Valid.{IsValid};
ghost use Rattle.driving.specs.master.World.{world};
ghost use Rattle.replay.specs.Adopting.{IsFinal, LoadsOne, IsStuck, LoadsAll, Stops};
ghost use Rattle.replay.specs.Adopting.{IsAdopted, IsAdoptedOn, AdoptsList, DeclinesList};
ghost use Rattle.replay.specs.Fresh.{AreNew};
ghost use Rattle.replay.specs.Needs.{CanBeAdopted};

use claims::{Objects, Rebuilt};
use driving::master::{Loading, Master};
use driving::master_core::{Config, Refusal};
use driving::{push_all, roll_all};
use entry::{NoMemory, ObjectRef};
use replica::Fleet;
use std::alloc::Global;

/// Loads one object, into a new head if the head in force has no room for it.
fn load_one<F: Fleet>(loading: &mut Loading<F>, object: &ObjectRef<'_>) -> Result<(), Refusal>
    requires { IsNewObject loading.old.knows (shown_object object.now) }
    ensures loaded { OnOk result (
        LoadsOne (shown_object object.now) (world F.state loading.old) (world F.state loading.new)) }
    ensures stopped { IfErr result (λ r.
        IsStuck (shown_object object.now ∷ []) (world F.state loading.old) r (world F.state loading.new) × IsFinal r) }
{
    loop {
        match loading.load_object(object) {
            Ok(()) => return Ok(()),
            Err(refusal) => match refusal {
                Refusal::Rolling => roll_all(loading)?,
                _ => return Err(refusal),
            },
        }
    }
}

/// Loads the objects in order, and pushes until nothing waits.
fn load_all<F: Fleet>(loading: &mut Loading<F>, objects: &Objects) -> Result<(), Refusal>
    requires { AreNew loading.old.knows objects.now }
    ensures loaded { OnOk result (LoadsAll objects.now (world F.state loading.old) (world F.state loading.new)) }
    ensures stopped { IfErr result (λ r.
        Stops objects.now (world F.state loading.old) r (world F.state loading.new)) }
{
    for object in objects.iter() {
        load_one(loading, &object)?;
    }
    push_all(loading)
}

/// A master into which the list is to be loaded. Its index is made for as many objects as the list has. If memory runs
/// out, the fleet comes back.
fn restore<F: Fleet>(
    alloc: Global,
    rebuilt: &Rebuilt,
    config: Config,
    fleet: F,
) -> Result<Loading<F>, (NoMemory, F)>
    requires config { config_fault config ≡ None }
    requires backups { config.backups ≤ (F.state fleet).backups }
    requires none { (b s : ℕ) → (F.state fleet).picture b config.master s ≡ None }
    requires least { IsUnraised config.master (F.state fleet) }
    ensures made { IfOk result (λ l. (l.knows ≡ restored_data config rebuilt.now.safe) × (l.fleet ≡ fleet)) }
    ensures refused { IfErr result (λ e. e.1 ≡ fleet) }
{
    match Master::restore(alloc, config, rebuilt.safe, fleet) {
        Ok(mut loading) => {
            loading.presize(rebuilt.objects.len());
            Ok(loading)
        }
        Err(refused) => Err(refused),
    }
}

/// Makes a master whose history begins with the list, under a number that has no replicas. No replica of another
/// master changes. The master begins a roll only if the next object has to wait for one. It pushes only for such an
/// object, or after the last object, and then until nothing waits. If the call is refused, the fleet comes back with
/// what it took so far. NoMemory may also come before the first take. Full comes only if the configuration has fewer
/// seglets than `seglets_needed` names, or if that names none, or if a take ended in a fault.
pub fn adopt_list<F: Fleet>(
    alloc: Global,
    rebuilt: &Rebuilt,
    config: Config,
    fleet: F,
) -> Result<Master<F>, (Refusal, F)>
    requires config { config_fault config ≡ None }
    requires backups { config.backups ≤ (F.state fleet).backups }
    requires none { (b s : ℕ) → (F.state fleet).picture b config.master s ≡ None }
    requires least { IsUnraised config.master (F.state fleet) }
    ensures adopted { IfOk result (λ m. IsAdopted config rebuilt.now m.knows) }
    ensures steps { IfOk result (λ m. AdoptsList config rebuilt.now (F.state fleet) (world F.state m)) }
    ensures valid { IfOk result (λ m. IsValid m.knows (F.state m.fleet)) }
    ensures fleet { IfOk result (λ m. IsAdoptedOn config.master (F.state fleet) (F.state m.fleet)) }
    ensures refused { IfErr result (λ e. DeclinesList config rebuilt.now (F.state fleet) e.0 (F.state e.1)) }
    ensures full { IfErr result (λ e. e.0 ≡ Refusal.Full → CanBeAdopted config rebuilt.now.objects
        → (F.state fleet).faults < (F.state e.1).faults) }
    ensures left { IfErr result (λ e. IsAdoptedOn config.master (F.state fleet) (F.state e.1)) }
    ensures spent { IfErr result (λ e. e.0 ≡ Refusal.Spent → (F.state e.1).takes ≡ (F.state e.1).end) }
{
    match restore(alloc, rebuilt, config, fleet) {
        Ok(mut loading) => match load_all(&mut loading, &rebuilt.objects) {
            Ok(()) => match loading.finish() {
                Ok(master) => Ok(master),
                Err(_) => unreachable!(),
            },
            Err(refusal) => Err((refusal, loading.crash())),
        },
        Err((NoMemory, fleet)) => Err((Refusal::NoMemory, fleet)),
    }
}

/// Makes a master whose history begins with the list, as `adopt_list` does. If the call is refused, list and fleet
/// come back. After a refusal as Full `seglets_needed` says how many seglets another configuration has to have.
pub fn adopt<F: Fleet>(
    alloc: Global,
    rebuilt: Rebuilt,
    config: Config,
    fleet: F,
) -> Result<Master<F>, (Refusal, Rebuilt, F)>
    requires config { config_fault config ≡ None }
    requires backups { config.backups ≤ (F.state fleet).backups }
    requires none { (b s : ℕ) → (F.state fleet).picture b config.master s ≡ None }
    requires least { IsUnraised config.master (F.state fleet) }
    ensures adopted { IfOk result (λ m. IsAdopted config rebuilt m.knows) }
    ensures steps { IfOk result (λ m. AdoptsList config rebuilt (F.state fleet) (world F.state m)) }
    ensures valid { IfOk result (λ m. IsValid m.knows (F.state m.fleet)) }
    ensures fleet { IfOk result (λ m. IsAdoptedOn config.master (F.state fleet) (F.state m.fleet)) }
    ensures list { IfErr result (λ e. e.1 ≡ rebuilt) }
    ensures refused { IfErr result (λ e. DeclinesList config rebuilt (F.state fleet) e.0 (F.state e.2)) }
    ensures full { IfErr result (λ e. e.0 ≡ Refusal.Full → CanBeAdopted config rebuilt.objects
        → (F.state fleet).faults < (F.state e.2).faults) }
    ensures left { IfErr result (λ e. IsAdoptedOn config.master (F.state fleet) (F.state e.2)) }
    ensures spent { IfErr result (λ e. e.0 ≡ Refusal.Spent → (F.state e.2).takes ≡ (F.state e.2).end) }
{
    match adopt_list(alloc, &rebuilt, config, fleet) {
        Ok(master) => Ok(master),
        Err((refusal, fleet)) => Err((refusal, rebuilt, fleet)),
    }
}
