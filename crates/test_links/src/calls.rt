//! The calls by their names.
//!
//! To add a call, write a function that takes its arguments from [`Words`] and gives the answer as
//! text, beside those of its topic, and name it here.

use crate::matching::Library;
use crate::scene::Scene;
use crate::tls::Storage;
use crate::{graphs, images, matching};
use std::alloc::Global;
use test_file::{Calls, Fault, Words};

/// The calls, and what some of them share from line to line.
#[derive(Drop)]
pub struct LinkCalls {
    alloc: Global,
    storage: Storage,
    library: Library,
    scene: Scene,
}

impl LinkCalls {
    pub fn new(alloc: Global) -> Self {
        LinkCalls {
            alloc,
            storage: Storage::new(alloc),
            library: Library::new(alloc),
            scene: Scene::new(alloc),
        }
    }

    /// A call of matching within one object.
    fn matching(&mut self, call: &str, words: &mut Words) -> Result<String, Fault> {
        let alloc = self.alloc;
        match call {
            "symbol" => self.library.symbol(alloc, words),
            "version" => self.library.version(alloc, words),
            "version_name" => self.library.version_name(alloc, words),
            "pick" => self.library.pick(alloc, words),
            "tells" => matching::told(alloc, words),
            "name" => matching::name_text(alloc, words),
            "is_spelled" => matching::is_spelled(alloc, words),
            "missing_symbol" => matching::missing_symbol(alloc, words),
            "bad_flags" => matching::bad_flags(alloc, words),
            "field" => matching::field(alloc, words),
            _ => Err(Fault::Unclear),
        }
    }

    /// A call of a namespace's objects.
    fn of_scene(&mut self, call: &str, rest: &str, words: &mut Words) -> Result<String, Fault> {
        let alloc = self.alloc;
        match call {
            "nothing_there" => self.scene.clear(alloc),
            "object" => self.scene.object(alloc, words),
            "new_object" => self.scene.new_object(alloc, words),
            "open" => self.scene.open(alloc, words),
            "choose" => self.scene.choose(alloc, words),
            "scope" => self.scene.scope(alloc, words),
            "breadth" => self.scene.breadth(alloc, words),
            "is_there" => self.scene.is_there(alloc, words),
            "on_handle" => self.scene.on_handle(alloc, words),
            "on_default" => self.scene.on_default(alloc, words),
            "opened" => self.scene.opened(alloc, words),
            "files" => self.scene.files(alloc, rest),
            "load" => self.scene.load(alloc, words),
            "loaded" => self.scene.loaded(alloc, words),
            _ => self.matching(call, words),
        }
    }
}

impl Calls for LinkCalls {
    fn answer(&mut self, line: &str) -> Result<String, Fault> {
        let (call, rest) = line.split_once(' ').unwrap_or((line, ""));
        let mut words = Words::new(rest);
        let alloc = self.alloc;
        match call {
            "unneeded" => graphs::unneeded_of(alloc, &mut words),
            "init_order" => graphs::initialised(alloc, &mut words),
            "fini_order" => graphs::finalised(alloc, &mut words),
            "component" => graphs::component(alloc, &mut words),
            "add_module" => self.storage.add(alloc, &mut words),
            "remove_module" => self.storage.remove(alloc, &mut words),
            "static_size" => self.storage.static_size(alloc),
            "first_address" => self.storage.first_answer(alloc, &mut words),
            "keep_block" => self.storage.keep(alloc, &mut words),
            "kept" => self.storage.kept(alloc, &mut words),
            "relocated_word" => images::word(alloc, &mut words),
            _ => self.of_scene(call, rest, &mut words),
        }
    }
}
