//! Files and their imports, each file once.

ghost use Rattle.std.specs.Prelude.{◌≡◌, ◌≤◌, ◌<◌, ◌+◌, ◌==◌, ℕ, List, Option, All, Some, Ok, find, length, slice_get};
ghost use Rattle.std.specs.Prelude.{option_map, IfOk, IfErr, IfSome, OnOk};
ghost use Rattle.sgx_base.specs.Outcome.{OrMemory};
ghost use Rattle.sgx_base.specs.Stores.{AreOnlyRead, Holds, Store, max_file_size};
ghost use Rattle.edl_lexer.specs.Bounds.{LieIn};
ghost use Rattle.edl_lexer.specs.Lexing.{lexing};
ghost use Rattle.edl_grammar.specs.Files as grammar;
ghost use Rattle.edl_grammar.specs.Parser.{parsing};
ghost use Rattle.edl_grammar.specs.declared.SourceFile.{SourceFile as ASourceFile};
ghost use Rattle.edl_grammar.specs.declared.Import.{Import as AnImport};
ghost use Rattle.edl_imports.specs.Apart.{TypesAreApart};
ghost use Rattle.edl_imports.specs.Causes.{IsStop, IsStopOf, IsMissing};
ghost use Rattle.edl_imports.specs.ComeTo.{IsComeTo, IsReached, IsStopNamed, Comes, Finds};
ghost use Rattle.edl_imports.specs.Conflicts.{first_conflict as conflict_in};
ghost use Rattle.edl_imports.specs.Search.{IsSmall};
ghost use Rattle.edl_imports.specs.Offers as offers;
ghost use Rattle.edl_imports.specs.Gathering as spec;
ghost use Rattle.edl_imports.specs.Gathering.{IsImport, IsThere, HasRoom, IsFront};
ghost use Rattle.edl_imports.specs.Tables.{IsTold};

use crate::by_name::ByName;
use crate::conflicts::{Place, first_conflict};
use crate::faults::{ImportCause, Stop, fault_of};
use crate::offers::{Growing, Offer, own};
use crate::search::{Found, NewFile, found_file, read_new};
use edl_grammar::{EdlFile, Gathered, Import, NameAt, ParseFault, SourceFile};
use edl_lexer::{LexFault, Token, lex};
use edl_parser::parse;
use sgx_base::{Fault, Files, Word};
use sqlite_items::Items;
use std::alloc::{AllocError, Global};

/// The most files that are gathered.
const MAX_FILES: usize = 64;

/// A file whose imports are gathered, and what it offers.
#[derive(Debug, Drop)]
pub(crate) struct Finished {
    pub file: usize,
    pub offer: Offer,
}

/// The files in order of reading, and those of them that are finished.
#[derive(Debug, Drop)]
pub(crate) struct Progress {
    pub files: Items<SourceFile>,
    pub finished: Items<Finished>,
}

/// An import by its place in its file.
#[derive(Clone, Copy, Debug)]
pub(crate) struct ImportAt {
    pub file: u32,
    pub index: usize,
}

/// An import, and its file with its number.
#[derive(Clone, Copy)]
struct Importing<'a> {
    number: u32,
    source: &'a SourceFile,
    import: &'a Import,
}

/// The fault of the lexer in the file of this name.
fn lex_stop(alloc: Global, name: &[u8], fault: LexFault) -> Stop
    ensures memory { fault ≡ LexFault.Memory → result ≡ Stop.Memory }
    ensures told { OrMemory Stop.Memory
        (λ stop. stop ≡ Stop.Fault (record { name = name.now; cause = ImportCause.Lex fault })) result }
{
    match fault {
        LexFault::Memory => Stop::Memory,
        fault => fault_of(alloc, name, ImportCause::Lex(fault)),
    }
}

fn tokens_of(alloc: Global, number: u32, file: &NewFile) -> Result<Vec<Token>, Stop>
    requires { length file.now.bytes ≤ max_file_size }
    ensures ok { IfOk result (λ tokens. lexing number file.now.bytes ≡ Ok tokens.items) }
    ensures within { IfOk result (λ tokens. LieIn file.now.bytes tokens.items 0) }
    ensures err { IfErr result (IsStopOf (spec.read_source number file.now)) }
{
    match lex(alloc, number, file.bytes.as_slice()) {
        Ok(tokens) => Ok(tokens),
        Err(fault) => Err(lex_stop(alloc, file.name.bytes(), fault)),
    }
}

fn tree_of(alloc: Global, number: u32, file: &NewFile, tokens: &[Token]) -> Result<EdlFile, Stop>
    requires small { length file.now.bytes ≤ max_file_size }
    requires within { LieIn file.now.bytes tokens.now 0 }
    requires lexed { lexing number file.now.bytes ≡ Ok tokens.now }
    ensures ok { IfOk result (λ tree. parsing number file.now.bytes tokens.now ≡ Ok tree) }
    ensures err { IfErr result (IsStopOf (spec.read_source number file.now)) }
{
    match parse(alloc, number, file.bytes.as_slice(), tokens) {
        Ok(tree) => Ok(tree),
        Err(ParseFault::Memory) => Err(Stop::Memory),
        Err(fault) => Err(fault_of(alloc, file.name.bytes(), ImportCause::Parse(fault))),
    }
}

/// The file of this number, lexed and parsed.
fn read_source(alloc: Global, number: u32, file: NewFile) -> Result<SourceFile, Stop>
    requires { length file.bytes ≤ max_file_size }
    ensures ok { IfOk result (λ source. spec.read_source number file ≡ Ok source) }
    ensures err { IfErr result (IsStopOf (spec.read_source number file)) }
{
    let tokens = tokens_of(alloc, number, &file)?;
    let tree = tree_of(alloc, number, &file, &tokens)?;
    let NewFile { name, bytes: _ } = file;
    let tokens = Items::from_vec(tokens);
    Ok(SourceFile { name, tokens, tree })
}

/// The fault with this code at a token of a file.
fn fault_by(number: u32, code: u8, token: Option<&Token>) -> Fault
    ensures { result ≡ grammar.fault_by number code (option_map (λ t. t.now) token.entry) }
{
    let (line, column) = match token {
        Some(token) => (token.line, token.column),
        None => (0, 0),
    };
    Fault {
        file: number,
        line,
        column,
        code,
    }
}

fn fault_at(number: u32, source: &SourceFile, token: u32, code: u8) -> Fault
    ensures { result ≡ spec.fault_at number source.now token code }
{
    fault_by(number, code, source.tokens.get(token as usize))
}

impl Importing<'_> {
    /// The fault of an import of this file.
    fn fault(&self, alloc: Global, cause: ImportCause) -> Stop
        ensures { OrMemory Stop.Memory
            (λ stop. stop ≡ Stop.Fault (record { name = self.now.source.now.name; cause = cause })) result }
    {
        fault_of(alloc, self.source.name.bytes(), cause)
    }

    /// The place in this file of a token, with this code.
    fn place(&self, token: u32, code: u8) -> Fault
        ensures { result ≡ spec.fault_at self.now.number self.now.source.now token code }
    {
        fault_at(self.number, self.source, token, code)
    }

    /// The file that was found, unless none was, or it is new and one too many.
    fn admitted(
        &self,
        alloc: Global,
        read: &[SourceFile],
        found: Option<Found>,
    ) -> Result<Found, Stop>
        requires { length read.now ≤ 64 }
        ensures ok { IfOk result
            (λ f. spec.admitted self.now.number self.now.source.now read.now self.now.import.now found ≡ Ok f) }
        ensures room { IfOk result (HasRoom read.now) }
        ensures small { IsSmall found → IfOk result (λ f. IsSmall (Some f)) }
        ensures err { IfErr result
            (IsStopOf (spec.admitted self.now.number self.now.source.now read.now self.now.import.now found)) }
        ensures none { IfErr result (IsMissing self.now.import.now.text found) }
    {
        match found {
            None => Err(fault_of(alloc, self.import.text.bytes(), ImportCause::NotFound)),
            Some(Found::Known(number)) => Ok(Found::Known(number)),
            Some(Found::New(file)) => {
                if read.len() == MAX_FILES {
                    let place = self.place(self.import.token, 11);
                    return Err(self.fault(alloc, ImportCause::TooManyFiles(place)));
                }
                Ok(Found::New(file))
            }
        }
    }

    /// What a file offers: nothing yet, where its own imports are still gathered.
    fn offered_by<'p>(
        &self,
        alloc: Global,
        finished: Option<&'p Finished>,
    ) -> Result<&'p Offer, Stop>
        ensures ok { IfOk result (λ offer. spec.offered_by self.now.number self.now.source.now self.now.import.now
            (option_map (λ f. f.now) finished.entry) ≡ Ok offer.now) }
        ensures err { IfErr result (IsStopOf (spec.offered_by self.now.number self.now.source.now self.now.import.now
            (option_map (λ f. f.now) finished.entry))) }
    {
        match finished {
            Some(finished) => Ok(&finished.offer),
            None => {
                let place = self.place(self.import.token, 8);
                Err(self.fault(alloc, ImportCause::Cycle(place)))
            }
        }
    }

    /// Puts the offered functions of these names behind, unless one is missing.
    #[tactic(auto, using(crate::proofs::ByName::missing_law, crate::proofs::ByName::names_law))]
    fn take_names(
        &self,
        alloc: Global,
        files: &[SourceFile],
        offered: &Offer,
        names: &[NameAt],
        growing: &mut Growing,
    ) -> Result<(), Stop>
        requires { IsTold growing.old }
        ensures ok { OnOk result (spec.with_taken self.now.number self.now.source.now files.now offered.now
            growing.old.offer (Some names.now) ≡ Ok growing.new.offer) }
        ensures told { OnOk result (IsTold growing.new) }
        ensures err { IfErr result (IsStopOf (spec.with_taken self.now.number self.now.source.now files.now offered.now
            growing.old.offer (Some names.now))) }
    {
        let offered = ByName::new(alloc, files, offered)?;
        if let Some(token) = offered.first_missing(names) {
            let place = self.place(token, 9);
            return Err(self.fault(alloc, ImportCause::NoSuchName(place)));
        }
        growing.join_names(alloc, &offered, names)?;
        Ok(())
    }

    /// Puts what the import takes of the offered functions behind: all, or those of its names.
    fn take(
        &self,
        alloc: Global,
        files: &[SourceFile],
        offered: &Offer,
        growing: &mut Growing,
    ) -> Result<(), Stop>
        requires { IsTold growing.old }
        ensures ok { OnOk result (spec.with_taken self.now.number self.now.source.now files.now offered.now
            growing.old.offer self.now.import.now.names ≡ Ok growing.new.offer) }
        ensures told { OnOk result (IsTold growing.new) }
        ensures err { IfErr result (IsStopOf (spec.with_taken self.now.number self.now.source.now files.now offered.now
            growing.old.offer self.now.import.now.names)) }
    {
        match &self.import.names {
            Some(names) => self.take_names(alloc, files, offered, names.as_slice(), growing),
            None => {
                growing.join(offered)?;
                Ok(())
            }
        }
    }

    /// The file that the import stands for.
    fn wanted<F: Files>(
        &self,
        alloc: Global,
        files: &mut F,
        paths: &[Word],
        read: &[SourceFile],
    ) -> Result<Found, Stop>
        requires { length read.now ≤ 64 }
        ensures ok { IfOk result (λ found. IfSome (F.state files.old).contents (λ store. spec.wanted store paths.now
            self.now.number self.now.source.now read.now self.now.import.now ≡ Ok found)) }
        ensures room { IfOk result (HasRoom read.now) }
        ensures small { IfOk result (λ found. IsSmall (Some found)) }
        ensures err { IfErr result (IsStop paths.now (F.state files.old) (F.state files.new) (λ store. spec.wanted store
            paths.now self.now.number self.now.source.now read.now self.now.import.now)) }
        ensures finds { Finds (F.state files.old).contents paths.now self.now.source.now.name self.now.import.now.text
            result }
        ensures kept { AreOnlyRead (F.state files.old) (F.state files.new) }
    {
        let found = found_file(alloc, files, paths, read, self.import.text.bytes())?;
        self.admitted(alloc, read, found)
    }
}

/// The import of this place.
fn import_at(files: &[SourceFile], at: ImportAt) -> Importing<'_>
    requires { IsThere files.now at }
    ensures number { result.number ≡ at.file }
    ensures is { IsImport files.now at result.source.now result.import.now }
{
    let Some(source) = files.get(at.file as usize) else {
        unreachable!()
    };
    let Some(import) = source.tree.imports.get(at.index) else {
        unreachable!()
    };
    Importing {
        number: at.file,
        source,
        import,
    }
}

/// What the file of this number offers, once it is finished.
fn offer_of(finished: &[Finished], number: usize) -> Option<&Finished>
    ensures { option_map (λ f. f.now) result ≡ find (λ f. f.file == number) finished.now }
{
    finished.iter().find(|finished| finished.file == number)
}

/// Puts what an import takes of the file of this number behind the offer.
fn take_from(
    alloc: Global,
    progress: &Progress,
    at: ImportAt,
    file: usize,
    growing: &mut Growing,
) -> Result<(), Stop>
    requires there { IsThere progress.now.files at }
    requires told { IsTold growing.old }
    ensures ok { (source : ASourceFile) (i : AnImport) → IsImport progress.now.files at source i
        → OnOk result (spec.taken_from at.file source progress.now i growing.old.offer file ≡ Ok growing.new.offer) }
    ensures told { OnOk result (IsTold growing.new) }
    ensures err { (source : ASourceFile) (i : AnImport) → IsImport progress.now.files at source i
        → IfErr result (IsStopOf (spec.taken_from at.file source progress.now i growing.old.offer file)) }
{
    let files = progress.files.as_slice();
    let importing = import_at(files, at);
    let finished = offer_of(progress.finished.as_slice(), file);
    let offered = importing.offered_by(alloc, finished)?;
    importing.take(alloc, files, offered, growing)
}

/// How many imports the file of this number has, and its own functions.
fn begin(alloc: Global, files: &[SourceFile], number: u32) -> Result<(usize, Growing), AllocError>
    requires { number < length files.now }
    ensures begun { IfOk result (λ begun. (source : ASourceFile) → slice_get files.now number ≡ Some source
        → (begun.0 ≡ length source.tree.imports) × (begun.1.offer ≡ offers.own number source.tree)) }
    ensures told { IfOk result (λ begun. IsTold begun.1) }
{
    let Some(source) = files.get(number as usize) else {
        unreachable!()
    };
    let offer = own(alloc, number, &source.tree)?;
    let growing = Growing::new(alloc, offer)?;
    Ok((source.tree.imports.len(), growing))
}

fn wanted_at<F: Files>(
    alloc: Global,
    files: &mut F,
    paths: &[Word],
    read: &[SourceFile],
    at: ImportAt,
) -> Result<Found, Stop>
    requires there { IsThere read.now at }
    requires few { length read.now ≤ 64 }
    ensures ok { (source : ASourceFile) (i : AnImport) → IsImport read.now at source i
        → IfOk result (λ found. IfSome (F.state files.old).contents
        (λ store. spec.wanted store paths.now at.file source read.now i ≡ Ok found)) }
    ensures room { IfOk result (HasRoom read.now) }
    ensures small { IfOk result (λ found. IsSmall (Some found)) }
    ensures err { (source : ASourceFile) (i : AnImport) → IsImport read.now at source i
        → IfErr result (IsStop paths.now (F.state files.old) (F.state files.new)
        (λ store. spec.wanted store paths.now at.file source read.now i)) }
    ensures finds { (source : ASourceFile) (i : AnImport) → IsImport read.now at source i
        → Finds (F.state files.old).contents paths.now source.name i.text result }
    ensures kept { AreOnlyRead (F.state files.old) (F.state files.new) }
{
    let importing = import_at(read, at);
    importing.wanted(alloc, files, paths, read)
}

/// The number of the file that an import stands for, which is gathered first where it is new.
#[cycle(gathering)]
fn reached<F: Files>(
    alloc: Global,
    files: &mut F,
    paths: &[Word],
    progress: &mut Progress,
    at: ImportAt,
    depth: usize,
) -> Result<usize, Stop>
    requires there { IsThere progress.old.files at }
    requires deep { 64 ≤ depth + length progress.old.files }
    requires few { length progress.old.files ≤ 64 }
    ensures ok { (source : ASourceFile) (i : AnImport) → IsImport progress.old.files at source i
        → IfOk result (λ file. IfSome (F.state files.old).contents
        (λ store. spec.imported store paths.now (spec.gather_within store paths.now depth) at.file source progress.old i
        ≡ Ok (progress.new, file))) }
    ensures err { (source : ASourceFile) (i : AnImport) → IsImport progress.old.files at source i
        → IfErr result (IsStop paths.now (F.state files.old) (F.state files.new)
        (λ store. spec.imported store paths.now (spec.gather_within store paths.now depth) at.file source progress.old
        i)) }
    ensures front { OnOk result (IsFront progress.old.files progress.new.files) }
    ensures few { OnOk result (length progress.new.files ≤ 64) }
    ensures come { (contents : Option Store) (root : List ℕ) → (F.state files.old).contents ≡ contents
        → All (IsReached contents paths.now root) progress.old.files
        → Comes contents paths.now root progress.new.files result }
    ensures kept { AreOnlyRead (F.state files.old) (F.state files.new) }
{
    match wanted_at(alloc, files, paths, progress.files.as_slice(), at)? {
        Found::Known(file) => Ok(file),
        Found::New(new) => {
            let file = progress.files.len();
            let offer = gather_file(alloc, files, paths, progress, new, depth)?;
            progress.finished.push(Finished { file, offer })?;
            Ok(file)
        }
    }
}

/// What the file of this number offers, once its imports are gathered in order.
#[cycle(gathering)]
fn import_all<F: Files>(
    alloc: Global,
    files: &mut F,
    paths: &[Word],
    progress: &mut Progress,
    number: u32,
    depth: usize,
) -> Result<Offer, Stop>
    requires there { number < length progress.old.files }
    requires deep { 64 ≤ depth + length progress.old.files }
    requires few { length progress.old.files ≤ 64 }
    ensures ok { (source : ASourceFile) → slice_get progress.old.files number ≡ Some source
        → IfOk result (λ offer. IfSome (F.state files.old).contents
        (λ store. spec.import_all store paths.now (spec.gather_within store paths.now depth) number source progress.old
        (offers.own number source.tree) source.tree.imports ≡ Ok (progress.new, offer))) }
    ensures err { (source : ASourceFile) → slice_get progress.old.files number ≡ Some source
        → IfErr result (IsStop paths.now (F.state files.old) (F.state files.new)
        (λ store. spec.import_all store paths.now (spec.gather_within store paths.now depth) number source progress.old
        (offers.own number source.tree) source.tree.imports)) }
    ensures front { OnOk result (IsFront progress.old.files progress.new.files) }
    ensures few { OnOk result (length progress.new.files ≤ 64) }
    ensures come { (contents : Option Store) (root : List ℕ) → (F.state files.old).contents ≡ contents
        → All (IsReached contents paths.now root) progress.old.files
        → Comes contents paths.now root progress.new.files result }
    ensures kept { AreOnlyRead (F.state files.old) (F.state files.new) }
{
    let (count, mut growing) = begin(alloc, progress.files.as_slice(), number)?;
    for index in 0..count {
        let at = ImportAt {
            file: number,
            index,
        };
        let file = reached(alloc, files, paths, progress, at, depth)?;
        take_from(alloc, progress, at, file, &mut growing)?;
    }
    let Growing { offer, tables: _ } = growing;
    Ok(offer)
}

/// What one more file offers, which is gathered with all that it imports.
#[cycle(gathering)]
fn gather_file<F: Files>(
    alloc: Global,
    files: &mut F,
    paths: &[Word],
    progress: &mut Progress,
    new: NewFile,
    depth: usize,
) -> Result<Offer, Stop>
    requires room { length progress.old.files < 64 }
    requires deep { 64 ≤ depth + length progress.old.files }
    requires small { length new.bytes ≤ max_file_size }
    ensures ok { IfOk result (λ offer. IfSome (F.state files.old).contents
        (λ store. spec.gather_within store paths.now depth progress.old new ≡ Ok (progress.new, offer))) }
    ensures err { IfErr result (IsStop paths.now (F.state files.old) (F.state files.new)
        (λ store. spec.gather_within store paths.now depth progress.old new)) }
    ensures front { OnOk result (IsFront progress.old.files progress.new.files) }
    ensures few { OnOk result (length progress.new.files ≤ 64) }
    ensures come { (contents : Option Store) (root : List ℕ) → (F.state files.old).contents ≡ contents
        → All (IsReached contents paths.now root) progress.old.files → IsComeTo contents paths.now root new.name
        → IfSome contents (λ store. store new.name ≡ Some new.bytes)
        → Comes contents paths.now root progress.new.files result }
    ensures kept { AreOnlyRead (F.state files.old) (F.state files.new) }
{
    let number = progress.files.len() as u32;
    let source = read_source(alloc, number, new)?;
    progress.files.push(source)?;
    import_all(alloc, files, paths, progress, number, depth - 1)
}

fn root_file<F: Files>(alloc: Global, files: &mut F, root: &str) -> Result<NewFile, Stop>
    ensures ok { IfOk result (λ f. IfSome (F.state files.old).contents
        (λ store. spec.root_bytes root.now (store root.now) ≡ Ok f)) }
    ensures small { IfOk result (λ f. length f.bytes ≤ max_file_size) }
    ensures err { (paths : List (List ℕ)) → IfErr result (IsStop paths (F.state files.old) (F.state files.new)
        (λ store. spec.root_bytes root.now (store root.now))) }
    ensures name { IfOk result (λ f. f.name ≡ root.now) }
    ensures held { IfOk result (λ f. Holds (F.state files.old) root.now (Some f.bytes)) }
    ensures named { (paths : List (List ℕ)) → IfErr result
        (IsStopNamed (F.state files.old).contents paths root.now) }
    ensures kept { AreOnlyRead (F.state files.old) (F.state files.new) }
{
    match read_new(alloc, files, root)? {
        Some(file) => Ok(file),
        None => Err(fault_of(alloc, root.as_bytes(), ImportCause::NotFound)),
    }
}

fn name_at(files: &[SourceFile], number: u32) -> &[u8]
    ensures { result.now ≡ spec.name_at files.now number }
{
    match files.get(number as usize) {
        Some(file) => file.name.bytes(),
        None => b"",
    }
}

fn tokens_at(files: &[SourceFile], number: u32) -> &[Token]
    ensures { result.now ≡ spec.tokens_at files.now number }
{
    match files.get(number as usize) {
        Some(file) => file.tokens.as_slice(),
        None => &[],
    }
}

/// The fault of a name that a file before declares too.
fn conflict(alloc: Global, gathered: &Gathered, at: Place) -> Stop
    ensures { IsStopOf (spec.unless_conflict gathered.now (Some at)) result }
{
    let files = gathered.files.as_slice();
    let fault = fault_by(
        at.file,
        10,
        tokens_at(files, at.file).get(at.token as usize),
    );
    fault_of(alloc, name_at(files, at.file), ImportCause::Conflict(fault))
}

/// What was gathered, unless two files declare a name.
fn unless_conflict(alloc: Global, gathered: Gathered) -> Result<Gathered, Stop>
    requires { length gathered.files ≤ 64 }
    ensures ok { IfOk result (λ g. spec.unless_conflict gathered (conflict_in gathered) ≡ Ok g) }
    ensures same { IfOk result (λ g. g ≡ gathered) }
    ensures apart { IfOk result TypesAreApart }
    ensures err { IfErr result (IsStopOf (spec.unless_conflict gathered (conflict_in gathered))) }
{
    match first_conflict(alloc, &gathered)? {
        Some(at) => Err(conflict(alloc, &gathered, at)),
        None => Ok(gathered),
    }
}

/// The root file and all that it imports.
fn gather_all<F: Files>(
    alloc: Global,
    files: &mut F,
    root: &str,
    paths: &[Word],
) -> Result<Gathered, Stop>
    ensures ok { IfOk result (λ g. IfSome (F.state files.old).contents
        (λ store. spec.all_of store paths.now root.now ≡ Ok g)) }
    ensures few { IfOk result (λ g. length g.files ≤ 64) }
    ensures read { IfOk result
        (λ g. All (IsReached (F.state files.old).contents paths.now root.now) g.files) }
    ensures named { IfErr result (IsStopNamed (F.state files.old).contents paths.now root.now) }
    ensures err { IfErr result (IsStop paths.now (F.state files.old) (F.state files.new)
        (λ store. spec.all_of store paths.now root.now)) }
    ensures kept { AreOnlyRead (F.state files.old) (F.state files.new) }
{
    let file = root_file(alloc, files, root)?;
    let mut progress = Progress {
        files: Items::new(alloc),
        finished: Items::new(alloc),
    };
    let offer = gather_file(alloc, files, paths, &mut progress, file, MAX_FILES)?;
    let Offer { trusted, untrusted } = offer;
    let Progress {
        files: read,
        finished: _,
    } = progress;
    Ok(Gathered {
        files: read,
        trusted,
        untrusted,
    })
}

/// The root file and all that it imports, or what stops the gathering.
pub(crate) fn gather_root<F: Files>(
    alloc: Global,
    files: &mut F,
    root: &str,
    paths: &[Word],
) -> Result<Gathered, Stop>
    ensures ok { IfOk result (λ g. IfSome (F.state files.old).contents
        (λ store. spec.gathering store paths.now root.now ≡ Ok g)) }
    ensures few { IfOk result (λ g. length g.files ≤ 64) }
    ensures read { IfOk result
        (λ g. All (IsReached (F.state files.old).contents paths.now root.now) g.files) }
    ensures named { IfErr result (IsStopNamed (F.state files.old).contents paths.now root.now) }
    ensures apart { IfOk result TypesAreApart }
    ensures err { IfErr result (IsStop paths.now (F.state files.old) (F.state files.new)
        (λ store. spec.gathering store paths.now root.now)) }
    ensures kept { AreOnlyRead (F.state files.old) (F.state files.new) }
{
    let gathered = gather_all(alloc, files, root, paths)?;
    unless_conflict(alloc, gathered)
}
