//! What turns do to kernel and runner.
ghost use Rattle.std.specs.Prelude.{◌≡◌, ◌<◌, ◌≤◌, ◌+◌, [], ◌∷◌, ◌++◌, length, map, IfSome, IsSome, None, Some, true};
ghost use Rattle.mote_base.specs.Messages.{front};
ghost use Rattle.mote_layout.specs.Limits.{turn_lines};
ghost use Rattle.mote_layout.specs.Memory.{domain_count};
ghost use Rattle.domain_model.specs.Free.{UnitStep, ends_handler};
ghost use Rattle.domain_model.specs.Good.{GoodMachine};
ghost use Rattle.domain_model.specs.Modules.{id_at, in_use, module_at, module_named};
ghost use Rattle.domain_model.specs.Runners.{IsPlaceable, unit_by, unit_lines};
ghost use Rattle.domain_model.specs.Turn.{begun, came, close, dispatch, entered, faulted, init_to, load_prepared, placed, settled, unload_module};
ghost use Rattle.mod_loader.specs.Banks.{prepared_of};
ghost use Rattle.mod_loader.specs.Loads.{load_detail, load_kind, load_number, load_value};
ghost use Rattle.mote_core.specs.Exact.{came_by, closed_by, dispatched_by, faulted_by, handler_entered, loaded_by, settled_by};
ghost use Rattle.mote_core.specs.Rows.{AreInDomains};

use domain_model::{FaultNote, Lines, LoaderOrder, Running, TraceLine, UnitEnd};
use kernel_call::{Kernel, Runner};
use mod_loader::{LoadRefusal, Ready, load};
use unit_code::BankCode;

/// Where the stack of the running handler stands.
pub fn stack_pointer(k: &Kernel) -> u16
    ensures { result ≡ k.now.processor.sp }
{
    k.cpu().sp
}

// The id of the module in a domain, or 0 where there is none.
fn id_at(k: &Kernel, domain: u8) -> u8
    ensures { result ≡ id_at k.now.modules domain }
{
    match k.module_at(domain) {
        Some(row) => row.id,
        None => 0,
    }
}

/// Does what an event of the script asks for.
pub fn come<R: Runner>(
    images: &[Ready],
    what: LoaderOrder,
    k: &mut Kernel,
    r: &mut R,
    lines: &mut Lines,
)
    requires empty { lines.old ≡ [] }
    requires outside { k.old.running ≡ None }
    requires machine { GoodMachine k.old (R.Runner.part r.old) }
    ensures kernel { k.new ≡ (came (map prepared_of images.now) what k.old (R.Runner.part r.old)).kernel }
    ensures runner { R.Runner.part r.new ≡ (came (map prepared_of images.now) what k.old (R.Runner.part r.old)).runner }
    ensures exact { r.new ≡ came_by R.Runner.placed_by R.Runner.entered_by images.now what k.old r.old }
    ensures lines { lines.new ≡ (came (map prepared_of images.now) what k.old (R.Runner.part r.old)).lines }
{
    match what {
        LoaderOrder::Load(number) => {
            if let Some(ready) = images.get(usize::from(number)) {
                load_image(ready, number, k, r, lines);
            }
        }
        LoaderOrder::Unload(id) => unload(id, k, r, lines),
        LoaderOrder::Dump => k.dump(lines),
    }
}

// Starts the last handler of a module, or says that there is no such module.
fn unload<R: Runner>(id: u8, k: &mut Kernel, r: &mut R, lines: &mut Lines)
    requires empty { lines.old ≡ [] }
    requires outside { k.old.running ≡ None }
    requires machine { GoodMachine k.old (R.Runner.part r.old) }
    ensures kernel { k.new ≡ (unload_module (module_named k.old.modules id) id k.old (R.Runner.part r.old)).kernel }
    ensures runner { R.Runner.part r.new ≡
        (unload_module (module_named k.old.modules id) id k.old (R.Runner.part r.old)).runner }
    ensures exact { r.new ≡ handler_entered R.Runner.entered_by (module_named k.old.modules id) r.old }
    ensures lines { lines.new ≡ (unload_module (module_named k.old.modules id) id k.old (R.Runner.part r.old)).lines }
{
    let Some(row) = k.module_named(id) else {
        lines.add(TraceLine::Absent {
            time: k.clock(),
            id,
        });
        return;
    };
    k.finish(row.domain, lines);
    r.enter(row.domain, row.handler);
}

/// Dispatches the first message that waits.
pub fn dispatch<R: Runner>(k: &mut Kernel, r: &mut R, lines: &mut Lines)
    requires empty { lines.old ≡ [] }
    requires outside { k.old.running ≡ None }
    requires machine { GoodMachine k.old (R.Runner.part r.old) }
    ensures kernel { k.new ≡ (dispatch (front k.old.queues) k.old (R.Runner.part r.old)).kernel }
    ensures runner { R.Runner.part r.new ≡ (dispatch (front k.old.queues) k.old (R.Runner.part r.old)).runner }
    ensures exact { r.new ≡ dispatched_by R.Runner.entered_by (front k.old.queues) k.old r.old }
    ensures lines { lines.new ≡ (dispatch (front k.old.queues) k.old (R.Runner.part r.old)).lines }
{
    if let Some(domain) = k.next_message(lines) {
        let Some(row) = k.module_at(domain) else {
            unreachable!()
        };
        r.enter(row.domain, row.handler);
    }
}

// Writes the line of a load that is refused.
fn refuse(refusal: &LoadRefusal, image: u8, k: &Kernel, lines: &mut Lines)
    requires { length lines.old < turn_lines }
    ensures { lines.new ≡ lines.old ++ TraceLine.Refused k.now.clock image (load_number refusal.now)
        (load_kind refusal.now) (load_value refusal.now) (load_detail refusal.now) ∷ [] }
{
    lines.add(TraceLine::Refused {
        time: k.clock(),
        image,
        number: refusal.number(),
        k: refusal.kind(),
        p: refusal.value(),
        q: refusal.detail(),
    });
}

// Loads the module of an image and starts it, or says why it is not loaded.
fn load_image<R: Runner>(ready: &Ready, image: u8, k: &mut Kernel, r: &mut R, lines: &mut Lines)
    requires empty { lines.old ≡ [] }
    requires outside { k.old.running ≡ None }
    requires machine { GoodMachine k.old (R.Runner.part r.old) }
    ensures kernel { k.new ≡ (load_prepared (prepared_of ready.now) image k.old (R.Runner.part r.old)).kernel }
    ensures runner { R.Runner.part r.new ≡
        (load_prepared (prepared_of ready.now) image k.old (R.Runner.part r.old)).runner }
    ensures exact { r.new ≡ loaded_by R.Runner.placed_by R.Runner.entered_by (Some ready.now) k.old r.old }
    ensures lines { lines.new ≡ (load_prepared (prepared_of ready.now) image k.old (R.Runner.part r.old)).lines }
{
    ready.known();
    match load(k, ready) {
        Ok(domain) => {
            let Some(bank) = ready.bank() else {
                unreachable!()
            };
            start(bank, domain, k, r, lines);
        }
        Err(refusal) => refuse(&refusal, image, k, lines),
    }
}

// Starts the module that was put into a domain just now, with the code of its bank.
fn start<R: Runner>(bank: &BankCode, domain: u8, k: &mut Kernel, r: &mut R, lines: &mut Lines)
    requires empty { lines.old ≡ [] }
    requires outside { k.old.running ≡ None }
    requires domain { domain < domain_count }
    requires used { in_use k.old.modules domain ≡ true }
    requires banks { length (R.Runner.part r.old).banks ≡ domain_count }
    requires placeable { IsPlaceable bank.now }
    requires handler { IfSome (module_at k.old.modules domain) (λ m. m.handler < length bank.now.units) }
    ensures kernel { IfSome (module_at k.old.modules domain)
        (λ m. k.new ≡ begun k.old m.domain m.state m.constants (init_to m.face.id)) }
    ensures runner { IfSome (module_at k.old.modules domain)
        (λ m. R.Runner.part r.new ≡ entered (placed (R.Runner.part r.old) domain bank.now.units) m.handler) }
    ensures exact { IfSome (module_at k.old.modules domain)
        (λ m. r.new ≡ R.Runner.entered_by (R.Runner.placed_by r.old domain bank.now) domain m.handler) }
    ensures lines { IfSome (module_at k.old.modules domain)
        (λ m. lines.new ≡ TraceLine.Load k.old.clock m.face.id m.domain m.state ∷
        TraceLine.Run k.old.clock m.face.id 0 0 ∷ []) }
{
    let Some(row) = k.module_at(domain) else {
        unreachable!()
    };
    lines.add(TraceLine::Load {
        time: k.clock(),
        id: row.id,
        domain: row.domain,
        state: row.state,
    });
    k.begin(domain, lines);
    r.place(domain, bank);
    r.enter(domain, row.handler);
}

/// Stops the handler, and takes its module out.
pub fn stop<R: Runner>(note: FaultNote, run: &Running, k: &mut Kernel, r: &mut R, lines: &mut Lines)
    requires running { k.old.running ≡ Some run.now }
    requires loaded { in_use k.old.modules run.now.domain ≡ true }
    requires domain { run.now.domain < domain_count }
    requires modules { AreInDomains k.old.modules }
    requires room { length lines.old + 3 ≤ turn_lines }
    ensures kernel { k.new ≡ (faulted note run.now k.old (R.Runner.part r.old) lines.old).kernel }
    ensures runner { R.Runner.part r.new ≡ (faulted note run.now k.old (R.Runner.part r.old) lines.old).runner }
    ensures exact { r.new ≡ faulted_by R.Runner.cleared_by run.now k.old r.old }
    ensures lines { lines.new ≡ (faulted note run.now k.old (R.Runner.part r.old) lines.old).lines }
{
    let time = k.clock();
    let id = id_at(k, run.domain);
    lines.add(TraceLine::Fault {
        time,
        rule: note.rule,
        id,
        unit: r.here(),
        address: note.address,
    });
    lines.add(TraceLine::Unload { time, id });
    let ending = k.end_handler();
    k.purge(run.domain);
    r.clear(run.domain);
    purge_ending(ending, k, r, lines);
}

// Takes the module that ends out, where it is still loaded. The kernel has none that ends any more.
fn purge_ending<R: Runner>(ending: Option<u8>, k: &mut Kernel, r: &mut R, lines: &mut Lines)
    requires outside { k.old.running ≡ None }
    requires none { k.old.ending ≡ None }
    requires modules { AreInDomains k.old.modules }
    requires room { length lines.old < turn_lines }
    ensures kernel { k.new ≡ (close ending k.old (R.Runner.part r.old) lines.old).kernel }
    ensures runner { R.Runner.part r.new ≡ (close ending k.old (R.Runner.part r.old) lines.old).runner }
    ensures exact { r.new ≡ closed_by R.Runner.cleared_by ending k.old.modules r.old }
    ensures lines { lines.new ≡ (close ending k.old (R.Runner.part r.old) lines.old).lines }
{
    let Some(id) = ending else {
        return;
    };
    if let Some(row) = k.module_named(id) {
        lines.add(TraceLine::Unload {
            time: k.clock(),
            id: row.id,
        });
        k.purge(row.domain);
        r.clear(row.domain);
    }
}

/// Runs one unit. It is one of the machine's.
pub fn run_one<R: Runner>(k: &mut Kernel, r: &mut R, lines: &mut Lines) -> UnitEnd
    requires good { GoodMachine k.old (R.Runner.part r.old) }
    requires inside { IsSome k.old.running }
    requires empty { lines.old ≡ [] }
    ensures kernel { k.new ≡ (R.Runner.acts k.old r.old).kernel }
    ensures runner { R.Runner.part r.new ≡ R.Runner.part (R.Runner.acts k.old r.old).runner }
    ensures exact { r.new ≡ (R.Runner.acts k.old r.old).runner }
    ensures lines { lines.new ≡ (R.Runner.acts k.old r.old).lines }
    ensures few { length lines.new ≤ unit_lines }
    ensures ending { result ≡ (R.Runner.acts k.old r.old).ending }
    ensures step { UnitStep k.old (R.Runner.part r.old) (unit_by R.Runner.part (R.Runner.acts k.old r.old)) }
{
    r.known();
    r.run_unit(k, lines)
}

/// Does what the end of a unit asks for, which found this running.
pub fn settle<R: Runner>(
    ending: UnitEnd,
    run: &Running,
    k: &mut Kernel,
    r: &mut R,
    lines: &mut Lines,
)
    requires running { ends_handler ending ≡ true → k.old.running ≡ Some run.now }
    requires loaded { in_use k.old.modules run.now.domain ≡ true }
    requires domain { run.now.domain < domain_count }
    requires modules { AreInDomains k.old.modules }
    requires room { length lines.old + 3 ≤ turn_lines }
    ensures kernel { k.new ≡ (settled ending run.now k.old (R.Runner.part r.old) lines.old).kernel }
    ensures runner { R.Runner.part r.new ≡ (settled ending run.now k.old (R.Runner.part r.old) lines.old).runner }
    ensures exact { r.new ≡ settled_by R.Runner.cleared_by ending run.now k.old r.old }
    ensures lines { lines.new ≡ (settled ending run.now k.old (R.Runner.part r.old) lines.old).lines }
{
    match ending {
        UnitEnd::On => {}
        UnitEnd::Over => {
            lines.add(TraceLine::Done {
                time: k.clock(),
                id: id_at(k, run.domain),
            });
            let ending = k.end_handler();
            purge_ending(ending, k, r, lines);
        }
        UnitEnd::Fault(note) => stop(note, run, k, r, lines),
    }
}
