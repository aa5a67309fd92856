//! Modules that come in and go.
ghost use Rattle.std.specs.Prelude.{◌≡◌, ℕ, None, Ok, true};
ghost use Rattle.domain_model.specs.Modules.{in_use, module_named};
ghost use Rattle.mod_loader.specs.Loads.{answered, loading, unloading};

use crate::loadable::Loadable;
use crate::ready::Ready;
use crate::refusal::{LoadRefusal, NotLoaded, of_file};
use kernel_call::{Admitted, Kernel};

/// Brings the module of an image in, outside a handler, and answers its domain. Its handler does not start. After a
/// refusal nothing has changed.
pub fn load(k: &mut Kernel, image: &Ready) -> Result<u8, LoadRefusal>
    requires { k.old.running ≡ None }
    ensures kernel { k.new ≡ (loading image.now k.old).kernel }
    ensures answer { result ≡ (loading image.now k.old).answer }
    ensures used { (d : ℕ) → result ≡ Ok d → in_use k.new.modules d ≡ true }
{
    match image.prepared() {
        Ok(loadable) => admit(k, loadable),
        Err(refusal) => Err(of_file(refusal)),
    }
}

// Brings a module in.
fn admit(k: &mut Kernel, loadable: &Loadable) -> Result<u8, LoadRefusal>
    requires { k.old.running ≡ None }
    ensures kernel { k.new ≡ (loading (Ok loadable.now) k.old).kernel }
    ensures answer { result ≡ (loading (Ok loadable.now) k.old).answer }
    ensures used { (d : ℕ) → result ≡ Ok d → in_use k.new.modules d ≡ true }
{
    loadable.known();
    let admitted = k.admit(
        loadable.face(),
        loadable.state_size(),
        loadable.handler(),
        loadable.entries(),
        loadable.constants(),
        loadable.sealed(),
    );
    answered(admitted)
}

fn answered(admitted: Admitted) -> Result<u8, LoadRefusal>
    ensures { result ≡ answered admitted }
{
    match admitted {
        Admitted::Placed(domain) => Ok(domain),
        Admitted::Duplicate => Err(LoadRefusal::Duplicate),
        Admitted::Domain => Err(LoadRefusal::Domain),
        Admitted::Room => Err(LoadRefusal::Room),
    }
}

/// Takes the module with an id out, outside a handler, with all that is its own, and answers its domain. No last
/// handler of it runs.
pub fn unload(k: &mut Kernel, id: u8) -> Result<u8, NotLoaded>
    requires { k.old.running ≡ None }
    ensures kernel { k.new ≡ (unloading (module_named k.old.modules id) k.old).kernel }
    ensures answer { result ≡ (unloading (module_named k.old.modules id) k.old).answer }
{
    let Some(row) = k.module_named(id) else {
        return Err(NotLoaded::NotLoaded);
    };
    k.purge(row.domain);
    Ok(row.domain)
}
