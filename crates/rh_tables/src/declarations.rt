//! The names and promises that the lines above declare.

ghost use Rattle.std.specs.Prelude.{◌≡◌, ◌<◌, ◌≤◌, ◌++◌, ◌∷◌, [], List, ℕ, Some, None, IfOk, OnOk, OnErr, IfSome, length, true, false, not, cond, ◌&&◌};
ghost use Rattle.rh_words.specs.declared.limits.TheConstants.{MAX_PROMISE_WORDS, MAX_PROMISES};
ghost use Rattle.rh_words.specs.NameKeys.{name_key};
ghost use Rattle.rh_rules.specs.Tables.{declared_promise, putting, is_among, promise_at, is_put};
ghost use Rattle.rh_rules.specs.Rules.{is_promise_over};
ghost use Rattle.rh_tables.specs.Declarations.{declarations, IsNoted};
ghost use Rattle.rh_tables.specs.Making.{promise_reason};
ghost use Rattle.rh_rules.specs.Tables.{put_all};

use rh_rules::PlannedPromise;
use rh_words::limits::{MAX_PROMISES, MAX_SHOWN_WORDS, MAX_TOTAL_WORDS};
use rh_words::{Name, NameKey, OutOfMemory, Reason, keys_tell_names_apart};
use std::alloc::Global;
use std::collections::HashMap;
use std::marker::Model;

/// The names that are declared, found through one map, and the promises among them, by their numbers.
#[derive(Drop)]
pub struct Declared {
    /// By name the number of its promise, or none where it is another's name.
    known: HashMap<NameKey, Option<u32>>,
    names: Vec<Name>,
    promises: Vec<PlannedPromise>,
    /// How many words the promises have, and how many of these a report shows.
    words: u64,
    shown: u64,
}

impl Model for Declared {
    ghost use Rattle.rh_tables.specs.Declarations.{Declarations, declarations, AreFound};

    ghost Value = { Declarations };

    ghost view = { λ t. declarations t.names.items t.promises.items };

    ghost invariant = { λ t. AreFound t.known t.names.items t.promises.items t.words t.shown };
}

impl Declared {
    pub fn new(alloc: Global) -> Declared
        ensures { result ≡ declarations [] [] }
    {
        Declared {
            known: HashMap::new(alloc),
            names: Vec::new(alloc),
            promises: Vec::new(alloc),
            words: 0,
            shown: 0,
        }
    }

    /// The promises.
    pub fn into_promises(self) -> Vec<PlannedPromise>
        ensures { result.items ≡ self.promises }
    {
        self.promises
    }

    pub fn promises(&self) -> &[PlannedPromise]
        ensures { result.now ≡ self.now.promises }
    {
        self.promises.as_slice()
    }

    /// The number of the promise of the name.
    pub fn promise(&self, name: &Name) -> Option<u32>
        ensures number { result ≡ promise_at name.now self.now.promises }
        ensures within { IfSome result (λ i. i < length self.now.promises) }
    {
        let _is_name = name.bytes();
        match self.known.get(&name.key()) {
            Some(number) => *number,
            None => None,
        }
    }

    /// Adds a name that is no promise's, where it is not declared above. Whether it is added.
    pub fn add_name(&mut self, name: Name) -> Result<bool, OutOfMemory>
        ensures fresh { IfOk result (λ added. added ≡ not (is_among name self.old.names)) }
        ensures added { IfOk result (λ added. added ≡ true → self.new ≡ declarations (self.old.names ++ name ∷ []) self.old.promises) }
    {
        let key = name.key();
        if self.has(&name, &key) {
            return Ok(false);
        }
        keys_tell_names_apart();
        let _is_name = name.bytes();
        note(&mut self.names, &mut self.known, name, key, None)?;
        Ok(true)
    }

    /// Whether one more promise goes beyond a limit.
    fn is_over(&self, len: u32, temp: bool, scope: bool) -> bool
        requires { len ≤ MAX_PROMISE_WORDS }
        ensures { result ≡ is_promise_over self.now.promises (declared_promise [] len temp scope) }
    {
        self.promises.len() >= MAX_PROMISES
            || self.words + u64::from(len) > MAX_TOTAL_WORDS
            || self.shown + shown_words(len, temp, scope) > MAX_SHOWN_WORDS
    }

    /// Adds a promise, or says why it is refused.
    pub fn add_promise(
        &mut self,
        name: Name,
        len: u32,
        temp: bool,
        scope: bool,
    ) -> Result<Option<Reason>, OutOfMemory>
        requires short { len ≤ MAX_PROMISE_WORDS }
        ensures reason { IfOk result (λ answer. answer ≡ promise_reason self.old.names self.old.promises (declared_promise name len temp scope)) }
        ensures added { IfOk result (λ answer. answer ≡ None → self.new ≡ declarations (self.old.names ++ name ∷ []) (self.old.promises ++ declared_promise name len temp scope ∷ [])) }
    {
        let key = name.key();
        if self.has(&name, &key) {
            return Ok(Some(Reason::Twice));
        }
        if self.is_over(len, temp, scope) {
            return Ok(Some(Reason::PlanLimit));
        }
        self.add(name, key, len, temp, scope)?;
        Ok(None)
    }

    /// Adds a promise that is not refused, found by the key of its name.
    fn add(
        &mut self,
        name: Name,
        key: NameKey,
        len: u32,
        temp: bool,
        scope: bool,
    ) -> Result<(), OutOfMemory>
        requires key { key ≡ name_key name }
        requires fresh { is_among name self.old.names ≡ false }
        requires room { is_promise_over self.old.promises (declared_promise name len temp scope) ≡ false }
        ensures added { OnOk result (self.new ≡ declarations (self.old.names ++ name ∷ []) (self.old.promises ++ declared_promise name len temp scope ∷ [])) }
    {
        keys_tell_names_apart();
        let _is_name = name.bytes();
        let promise = PlannedPromise {
            name,
            len,
            putter: None,
            temp,
            scope,
        };
        note_promise(
            &mut self.promises,
            &mut self.names,
            &mut self.known,
            promise,
            key,
        )?;
        self.words += u64::from(len);
        self.shown += shown_words(len, temp, scope);
        Ok(())
    }

    /// Whether the name, of which this is the key, is declared.
    fn has(&self, name: &Name, key: &NameKey) -> bool
        requires { key.now ≡ name_key name.now }
        ensures { result ≡ is_among name.now self.now.names }
    {
        let _is_name = name.bytes();
        self.known.contains_key(key)
    }

    /// The node of this number puts the promise, which nothing puts above.
    pub fn put(&mut self, promise: u32, node: u32)
        requires { promise < length self.old.promises }
        ensures { (name : List ℕ) → promise_at name self.old.promises ≡ Some promise → is_put self.old.promises name ≡ false
            → self.new ≡ declarations self.old.names (put_all (putting name node ∷ []) self.old.promises) }
    {
        let promise = &mut self.promises[promise as usize];
        promise.putter = Some(node);
    }
}

/// How many words of a declared promise a report shows.
fn shown_words(len: u32, temp: bool, scope: bool) -> u64
    ensures { result ≡ cond (not temp && not scope) len 0 }
{
    if temp || scope { 0 } else { u64::from(len) }
}

/// Adds a promise and its name, which has the number of the promise then.
fn note_promise(
    promises: &mut Vec<PlannedPromise>,
    names: &mut Vec<Name>,
    known: &mut HashMap<NameKey, Option<u32>>,
    promise: PlannedPromise,
    key: NameKey,
) -> Result<(), OutOfMemory>
    requires key { key ≡ name_key promise.name }
    requires few { length promises.old.items < MAX_PROMISES }
    ensures promises { OnOk result (promises.new.items ≡ promises.old.items ++ promise ∷ []) }
    ensures names { OnOk result (names.new.items ≡ names.old.items ++ promise.name ∷ []) }
    ensures noted { OnOk result (IsNoted known.old known.new promise.name (Some (length promises.old.items))) }
    ensures promises_kept { OnErr result (promises.new.items ≡ promises.old.items) }
    ensures names_kept { OnErr result (names.new.items ≡ names.old.items) }
    ensures known_kept { OnErr result (known.new.entries ≡ known.old.entries) }
{
    let number = promises.len() as u32;
    let name = promise.name;
    promises.push(promise)?;
    match note(names, known, name, key, Some(number)) {
        Ok(()) => Ok(()),
        Err(OutOfMemory) => {
            promises.pop();
            Err(OutOfMemory)
        }
    }
}

/// Adds a name with its number, which is found by the key of the name.
fn note(
    names: &mut Vec<Name>,
    known: &mut HashMap<NameKey, Option<u32>>,
    name: Name,
    key: NameKey,
    number: Option<u32>,
) -> Result<(), OutOfMemory>
    requires { key ≡ name_key name }
    ensures names { OnOk result (names.new.items ≡ names.old.items ++ name ∷ []) }
    ensures noted { OnOk result (IsNoted known.old known.new name number) }
    ensures names_kept { OnErr result (names.new.items ≡ names.old.items) }
    ensures known_kept { OnErr result (known.new.entries ≡ known.old.entries) }
{
    names.push(name)?;
    match known.insert(key, number) {
        Ok(_) => Ok(()),
        Err(_) => {
            names.pop();
            Err(OutOfMemory)
        }
    }
}
