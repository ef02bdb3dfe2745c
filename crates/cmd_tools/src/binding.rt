//! Performs the command `bind NAME` over any world.

ghost use Rattle.std.specs.Prelude.{◌≡◌, ◌≤◌, ◌∷◌, ◌++◌, [], length, OnOk, Ok};
ghost use Rattle.m36_outside.specs.ReadAnswer.{file_limit};
ghost use Rattle.m36_bindfile.specs.BindFile.{bind_lines, names_or_fault, BindResult};
ghost use Rattle.m36_bind.specs.Bound.{bound_object_of};
ghost use Rattle.m36_status.specs.Refusing.{IsRuleResult, IsRuleRefusal};
ghost use Rattle.cmd_tools.specs.Binding.{bind_refused, names_or_refusal, report_of_bound_object};
ghost use Rattle.cmd_tools.specs.Binding.{bind_report_or_refusal};
ghost use Rattle.m36_program.specs.Performs.{Performs};
ghost use Rattle.m36_files.specs.EachFile.{read_and_append, read_each};
ghost use Rattle.m36_files.specs.FileReaders.{file_object};
ghost use Rattle.m36_files.specs.Writing.{may_write_files};
ghost use Rattle.cmd_tools.specs.ToolPrograms.{components_report, text_report, bind_report};
ghost use Rattle.cmd_tools.specs.ToolPrograms.{bind_program};

use crate::bind_files::BindFiles;
use crate::objects::object_bytes;
use crate::report::{Report, report_file};
use crate::reporting::write_report;
use m36_bind::{BindFault, bind, component_names_of};
use m36_files::{read_object, refusal_as_status};
use m36_list::print;
use m36_program::read_bytes;
use m36_status::{Code, Refusal, Status, refuse};
use m36_text::{Name, Names};
use m36_word::NoMemory;
use m36_world::World;
use obj36::Object;
use std::alloc::Global;
use std::marker::Model;

// The objects of the components that were read so far.
#[derive(Drop)]
struct Objects {
    items: Vec<Object>,
}

impl Model for Objects {
    ghost use Rattle.std.specs.Prelude.{List};
    ghost use Rattle.obj36_parts.specs.PartsFields.{PartsFields};

    ghost Value = { List PartsFields };

    ghost view = { λ o. o.items.items };
}

impl Objects {
    // No objects.
    fn new(alloc: Global) -> Objects
        ensures { result ≡ [] }
    {
        Objects {
            items: Vec::new(alloc),
        }
    }

    // Adds an object at the end.
    fn push(&mut self, x: Object) -> Result<(), NoMemory>
        ensures { OnOk result (self.new ≡ self.old ++ x ∷ []) }
    {
        self.items.push(x)?;
        Ok(())
    }

    // The objects in the order in which they were read.
    fn items(&self) -> &[Object]
        ensures { result.now ≡ self.now }
    {
        self.items.as_slice()
    }
}

// The refusal of a bind file, with the code B1 to B5 and the line.
fn refuse_bind(alloc: Global, name: &[u8], fault: BindFault) -> Refusal
    ensures { IsRuleRefusal result (bind_refused name.now fault) }
{
    match fault {
        BindFault::B1(line) => refuse(alloc, name, Code::B1, line),
        BindFault::B2(line) => refuse(alloc, name, Code::B2, line),
        BindFault::B3(line) => refuse(alloc, name, Code::B3, line),
        BindFault::B4(line) => refuse(alloc, name, Code::B4, line),
        BindFault::B5(line) => refuse(alloc, name, Code::B5, line),
        BindFault::NoMemory => Refusal::NoMemory,
    }
}

// The names of the components of a bind file.
#[tactic(auto, using(crate::proofs::BindLaws::naming))]
fn names_in(alloc: Global, file: &[u8], text: &[u8]) -> Result<Names, Refusal>
    requires { length text.now ≤ file_limit }
    ensures { IsRuleResult result (names_or_refusal file.now
        (names_or_fault (bind_lines text.now))) }
{
    match component_names_of(alloc, text) {
        Ok(names) => Ok(names),
        Err(fault) => Err(refuse_bind(alloc, file, fault)),
    }
}

// Appends an object.
fn append_object(mut objects: Objects, object: Object) -> Result<Objects, Refusal>
    ensures { IsRuleResult result (Ok (objects ++ object ∷ [])) }
{
    objects.push(object)?;
    Ok(objects)
}

// Reads the object of a component, and appends it.
fn read_component<W: World>(
    alloc: Global,
    objects: Objects,
    name: &Name,
    world: &mut W,
) -> Result<Objects, Status>
    ensures { Performs {may = may_write_files} (read_and_append file_object objects name.now) result
        (W.seen world.old) (W.seen world.new) }
{
    match read_object(alloc, name.bytes(), world) {
        Ok(object) => refusal_as_status(append_object(objects, object)),
        Err(status) => Err(status),
    }
}

// Reads the objects with these names, in order.
fn read_objects<W: World>(alloc: Global, names: &[Name], world: &mut W) -> Result<Objects, Status>
    ensures { Performs {may = may_write_files} (read_each file_object [] names.now) result
        (W.seen world.old) (W.seen world.new) }
{
    let mut objects = Objects::new(alloc);
    for name in names {
        match read_component(alloc, objects, name, world) {
            Ok(more) => objects = more,
            Err(status) => return Err(status),
        }
    }
    Ok(objects)
}

// The report of a bound object: the object under its name, and its print.
fn report_of(alloc: Global, name: &Name, object: &Object) -> Result<Report, Refusal>
    ensures { IsRuleResult result (Ok (report_of_bound_object name.now object.now)) }
{
    let content = object_bytes(alloc, object)?;
    let text = print(alloc, name.bytes(), object)?;
    let report = report_file(alloc, name, content, text)?;
    Ok(report)
}

// Binds the objects by the bind file. As `bind`, for a text of at most 16 MiB.
fn bind_text(
    alloc: Global,
    text: &[u8],
    names: &[Name],
    objects: &[Object],
) -> Result<Object, BindFault>
    requires { length text.now ≤ file_limit }
    ensures { BindResult result (bound_object_of text.now names.now objects.now) }
{
    bind(alloc, text, names, objects)
}

// Binds the objects, and makes the report; a fault is a refusal that names the bind file.
fn bind_and_report(
    alloc: Global,
    files: &BindFiles,
    text: &[u8],
    names: &[Name],
    objects: &[Object],
) -> Result<Report, Refusal>
    requires { length text.now ≤ file_limit }
    ensures { IsRuleResult result (bind_report_or_refusal files.now
        (bound_object_of text.now names.now objects.now)) }
{
    match bind_text(alloc, text, names, objects) {
        Ok(object) => {
            let report = report_of(alloc, &files.object, &object);
            // Dropped by a call, so that the drop is proved once for its type.
            drop(object);
            report
        }
        Err(fault) => Err(refuse_bind(alloc, files.bindfile.bytes(), fault)),
    }
}

// Reads the components, and binds them.
fn read_and_bind<W: World>(
    alloc: Global,
    files: &BindFiles,
    text: &[u8],
    names: &[Name],
    world: &mut W,
) -> Result<Report, Status>
    requires { length text.now ≤ file_limit }
    ensures { Performs {may = may_write_files}
        (components_report files.now text.now names.now) result
        (W.seen world.old) (W.seen world.new) }
{
    match read_objects(alloc, names, world) {
        Ok(objects) => {
            let given = bind_and_report(alloc, files, text, names, objects.items());
            drop(objects);
            refusal_as_status(given)
        }
        Err(status) => Err(status),
    }
}

// Parses the bind file for the names of the components, reads these, and binds them.
fn parse_and_bind<W: World>(
    alloc: Global,
    files: &BindFiles,
    text: &[u8],
    world: &mut W,
) -> Result<Report, Status>
    requires { length text.now ≤ file_limit }
    ensures { Performs {may = may_write_files} (text_report files.now text.now) result
        (W.seen world.old) (W.seen world.new) }
{
    match refusal_as_status(names_in(alloc, files.bindfile.bytes(), text)) {
        Ok(names) => {
            let report = read_and_bind(alloc, files, text, names.items(), world);
            drop(names);
            report
        }
        Err(status) => Err(status),
    }
}

// Reads a bind file and the objects of its components, and returns the report of the bound object.
fn read_bind<W: World>(alloc: Global, files: &BindFiles, world: &mut W) -> Result<Report, Status>
    ensures { Performs {may = may_write_files} (bind_report files.now) result
        (W.seen world.old) (W.seen world.new) }
{
    match read_bytes(alloc, files.bindfile.bytes(), world) {
        Ok(text) => {
            let report = parse_and_bind(alloc, files, text.bytes(), world);
            drop(text);
            report
        }
        Err(status) => Err(status),
    }
}

/// Performs `bind NAME`: binds the components of a bind file, writes the object, and then puts its
/// print. An error is the status of the command.
#[tactic(auto, using(crate::proofs::ToolSteps::binds))]
pub fn bind_objects<W: World>(alloc: Global, files: &BindFiles, world: &mut W) -> Result<(), Status>
    ensures { Performs (bind_program files.now) result (W.seen world.old) (W.seen world.new) }
{
    match read_bind(alloc, files, world) {
        Ok(report) => {
            let answer = write_report(alloc, &report, world);
            drop(report);
            answer
        }
        Err(status) => Err(status),
    }
}
