//! Finds the numbers of a list, and tells it anew.
#![tactic(auto)]

ghost use Rattle.std.specs.Prelude.{ℕ, false, true, length, ◌-◌, ◌≡◌, ◌+◌, ◌*◌, ◌^◌, ◌<◌, ◌≤◌, IfOk, IfSome};
ghost use Rattle.ksv_expr_value.specs.Places.{byte_of, end_limit};
ghost use Rattle.ksv_expr_value.specs.Trail.{element_limit};
ghost use Rattle.ksv_desc.specs.Whole.{plain_pieces};
ghost use Rattle.ksv_folds.specs.Layouts.{IsOf, HasLayout, IsFound};
ghost use Rattle.ksv_folds.specs.Parts.{is_rising, has_name, have_own_names, nth, are_apart};
ghost use Rattle.ksv_folds.specs.Sequence.{IsAlike, says_sizes, start_of, size_of, fold_of};
ghost use Rattle.ksv_memo_rules.specs.Folds.{BeginsAs};

use crate::counting::end_of as end_of_stream;
use crate::layout::{choice_size, content_size};
use crate::part::{Format, Part};
use crate::plain_list::PlainList;
use crate::scanning::{LAST_BYTE, Saying};
use crate::tail::{Tail, tail_of};
use ksv_bytes::Buffer;
use ksv_desc::{ByteOrder, Choice, Content, Desc, Extent, Field, MemberKind};
use ksv_expr_tree::Expr;
use ksv_nodes::{CaseNumber, ELEMENT_LIMIT, Given, Head, List, Node, ObjectOrigin, Origin};
use ksv_rule_meaning::members_of;
use std::alloc::{AllocError, Global};

/// An element, by numbers.
#[derive(Drop)]
struct Element {
    /// Its type; none if it has no fields.
    type_number: Option<u32>,
    /// How many bytes it takes.
    size: u32,
    /// Its fields.
    parts: Vec<Part>,
    /// How the field before the last says the size of that one, if it does.
    format: Option<Format>,
}

/// Where something of a size ends that begins at a place; none if no file has so many bytes.
fn end_of(from: u32, size: usize) -> Option<u32> {
    if size > LAST_BYTE as usize || from > LAST_BYTE {
        return None;
    }
    Some(from + size as u32)
}

/// How a field writes an integer, if it does.
fn format_of(field: &Field) -> Option<Format> {
    match field.choice {
        Choice::Always(
            Content::Number {
                is_signed,
                order,
                ..
            },
        ) => Some(Format { is_signed, order }),
        _ => None,
    }
}

/// Whether a field is bytes of a size that a name says.
fn is_said(field: &Field) -> bool {
    match (&field.choice, &field.extent) {
        (Choice::Always(Content::Bytes), Extent::Sized(Expr::Name(_))) => true,
        _ => false,
    }
}

/// Adds a field to an element; whether one more may be behind it. A field of a size that is said takes no bytes here, and is the last.
fn add_part(
    element: &mut Element,
    before: Option<Format>,
    name: u32,
    place: usize,
    field: &Field,
) -> Result<bool, AllocError> {
    let bytes = match choice_size(&field.choice) {
        Some(bytes) => bytes,
        None => {
            if !is_said(field) || before.is_none() {
                return Ok(false);
            }
            element.format = before;
            0
        }
    };
    let Some(to) = end_of(element.size, bytes) else {
        return Ok(false);
    };
    if place > 0xffff_ffff {
        return Ok(false);
    }
    element.size = to;
    element.parts.push(Part {
        name,
        member: place as u32,
        to,
    })?;
    Ok(true)
}

/// An element that is an object of a type.
fn object_element(
    alloc: Global,
    desc: &Desc,
    type_number: u32,
) -> Result<Option<Element>, AllocError> {
    let mut element = Element {
        type_number: Some(type_number),
        size: 0,
        parts: Vec::new(alloc),
        format: None,
    };
    let mut before = None;
    for (place, member) in members_of(desc, type_number).iter().enumerate() {
        let MemberKind::Attribute(field) = &member.kind else {
            continue;
        };
        if element.format.is_some() || !add_part(&mut element, before, member.name, place, field)? {
            return Ok(None);
        }
        before = format_of(field);
    }
    Ok(Some(element))
}

/// An element of a list that is read so.
fn element_of(alloc: Global, desc: &Desc, field: &Field) -> Result<Option<Element>, AllocError> {
    let Choice::Always(content) = &field.choice else {
        return Ok(None);
    };
    if let Content::Object { type_number, .. } = content {
        return object_element(alloc, desc, *type_number);
    }
    let Some(bytes) = content_size(content) else {
        return Ok(None);
    };
    let Some(size) = end_of(0, bytes) else {
        return Ok(None);
    };
    Ok(Some(Element {
        type_number: None,
        size,
        parts: Vec::new(alloc),
        format: None,
    }))
}

/// Whether each field ends after the one before, and the last not after the element.
fn is_rising(parts: &[Part], size: u32) -> bool
    ensures { result ≡ is_rising 0 size parts.now }
{
    let mut low = 0;
    for part in parts {
        let _name = part.name;
        if part.to < low || part.to == 0 {
            return false;
        }
        low = part.to;
    }
    low <= size
}

/// Whether one of some fields has a name.
fn has_name(parts: &[Part], name: u32) -> bool
    ensures { result ≡ has_name name parts.now }
{
    parts.iter().any(|part| part.name == name)
}

/// Whether each field has a name of its own.
fn have_own_names(parts: &[Part]) -> bool
    ensures { result ≡ have_own_names parts.now }
{
    let mut left = parts;
    while let [part, rest @ ..] = left {
        if has_name(rest, part.name) {
            return false;
        }
        left = rest;
    }
    true
}

/// How many elements have numbers.
#[tactic(auto, using(crate::proofs::Most::most_few))]
fn most_of(first: u32, size: u32, per: u32) -> u32
    requires some { 0 < size }
    requires nodes { per + 1 < 2 ^ 32 }
    requires first { first ≤ end_limit }
    ensures few { result ≤ element_limit }
    ensures room { first + size * result ≤ end_limit }
    ensures numbered { (per + 1) * result + 2 * element_limit < 2 ^ 32 }
{
    let room = (LAST_BYTE - first) / size;
    let numbers = (0xffff_ffff - 2 * ELEMENT_LIMIT) / (per + 1);
    let fewer = if room < numbers { room } else { numbers };
    if fewer < ELEMENT_LIMIT {
        fewer
    } else {
        ELEMENT_LIMIT
    }
}

/// How many elements have numbers at most, where they say sizes.
#[tactic(auto, using(crate::proofs::Most::most_few))]
fn most_sized(list: &List, per: u32) -> u32
    requires { per + 1 < 2 ^ 32 }
    ensures few { result ≤ element_limit }
    ensures numbered { (per + 1) * result + 2 * element_limit < 2 ^ 32 }
{
    let numbers = (0xffff_ffff - 2 * ELEMENT_LIMIT) / (per + 1);
    let fewer = if numbers < ELEMENT_LIMIT {
        numbers
    } else {
        ELEMENT_LIMIT
    };
    match list.count.get() {
        Some(count) => fewer.min(count),
        None => fewer,
    }
}

/// How an object's head is read, of an element of a list.
fn origin_of(list: &List) -> Result<ObjectOrigin, AllocError> {
    ObjectOrigin::new(Origin {
        member: list.origin.member,
        case: CaseNumber::none(),
        home: list.origin.home,
    })
}

/// Whether a list's path is short, it begins in a file, and its elements have bytes, few fields, and for each a place and a name of its own.
fn fits(root: &Node, list: &List, element: &Element) -> bool
    ensures short { result ≡ true → length root.now.path.upward < 63 }
    ensures some { result ≡ true → 0 < element.now.size }
    ensures first { result ≡ true → byte_of list.now.start ≤ end_limit }
    ensures few { result ≡ true → length element.now.parts.items ≤ 2 ^ 28 }
    ensures rising { result ≡ true → is_rising 0 element.now.size element.now.parts.items ≡ true }
    ensures named { result ≡ true → have_own_names element.now.parts.items ≡ true }
{
    if element.size == 0 || list.start.byte() > LAST_BYTE || root.path.len() > 62 {
        return false;
    }
    if element.parts.len() > 0x1000_0000 {
        return false;
    }
    is_rising(&element.parts, element.size) && have_own_names(&element.parts)
}

/// Where elements begin that say sizes, and the last of them ends, of those that are whole.
#[tactic(auto, using(crate::proofs::Scanned::one_apart))]
fn starts_of(
    alloc: Global,
    saying: Saying,
    list: &List,
    bytes: &Buffer,
    most: u32,
) -> Result<Vec<u32>, AllocError>
    requires { byte_of list.now.start ≤ end_limit }
    ensures begins { IfOk result (λ starts. nth starts.items 0 ≡ byte_of list.now.start) }
    ensures some { IfOk result (λ starts. 0 < length starts.items) }
    ensures few { IfOk result (λ starts. length starts.items ≤ most + 1) }
    ensures apart { IfOk result (λ starts. are_apart saying.size 0 starts.items ≡ true) }
    ensures room { IfOk result (λ starts. nth starts.items (length starts.items - 1) ≤ end_limit) }
{
    let mut starts = Vec::new(alloc);
    starts.push(list.start.byte())?;
    let end = end_of_stream(list.stream.to, bytes);
    saying.add_starts(&mut starts, bytes, end, most as usize + 1);
    Ok(starts)
}

/// The numbers of a list of such elements, which say sizes.
#[tactic(auto, using(crate::proofs::Scanned::fewer))]
fn sized(
    alloc: Global,
    root: &Node,
    list: &List,
    element: Element,
    format: Format,
    bytes: &Buffer,
) -> Result<Option<PlainList>, AllocError>
    ensures { IfOk result (λ found. IfSome found (λ p. p.root ≡ root.now)) }
{
    let fields = element.parts.len();
    if !fits(root, list, &element) || fields < 2 {
        return Ok(None);
    }
    let from = if fields == 2 {
        0
    } else {
        element.parts[fields - 3].to
    };
    let saying = Saying {
        from,
        size: element.size,
        format,
    };
    let per = 3 + 2 * fields as u32;
    let starts = starts_of(alloc, saying, list, bytes, most_sized(list, per))?;
    let most = starts.len() as u32 - 1;
    if most == 0 {
        return Ok(None);
    }
    Ok(Some(PlainList {
        root: root.copy(alloc)?,
        list: *list,
        origin: origin_of(list)?,
        type_number: element.type_number,
        first: list.start.byte(),
        size: element.size,
        parts: element.parts,
        per,
        most,
        starts: Some(starts),
        format,
        closed: false,
        missing: false,
    }))
}

/// The numbers of a list of such elements, which are of one size.
fn plain(
    alloc: Global,
    root: &Node,
    list: &List,
    element: Element,
) -> Result<Option<PlainList>, AllocError>
    ensures { IfOk result (λ found. IfSome found (λ p. p.root ≡ root.now)) }
{
    if !fits(root, list, &element) {
        return Ok(None);
    }
    let first = list.start.byte();
    let per = 2 + 2 * element.parts.len() as u32;
    let most = most_of(first, element.size, per);
    if most == 0 {
        return Ok(None);
    }
    Ok(Some(PlainList {
        root: root.copy(alloc)?,
        list: *list,
        origin: origin_of(list)?,
        type_number: element.type_number,
        first,
        size: element.size,
        parts: element.parts,
        per,
        most,
        starts: None,
        format: Format {
            is_signed: false,
            order: ByteOrder::Little,
        },
        closed: false,
        missing: false,
    }))
}

/// The numbers of a list of such elements.
fn numbered(
    alloc: Global,
    root: &Node,
    list: &List,
    element: Element,
    bytes: &Buffer,
) -> Result<Option<PlainList>, AllocError>
    ensures { IfOk result (λ found. IfSome found (λ p. p.root ≡ root.now)) }
{
    match element.format {
        Some(format) => sized(alloc, root, list, element, format, bytes),
        None => plain(alloc, root, list, element),
    }
}

/// The numbers of a list, if it is plain and they fit.
fn of_list(
    alloc: Global,
    desc: &Desc,
    root: &Node,
    list: &List,
    bytes: &Buffer,
    asker: Option<&Node>,
) -> Result<Option<PlainList>, AllocError>
    ensures root { IfOk result (λ found. IfSome found (λ p. p.root ≡ root.now)) }
    ensures found { IfOk result (λ found. IfSome found (λ p. IsOf p list.now × HasLayout p (plain_pieces desc.now) list.now)) }
{
    let member = list.origin.member;
    let Some(field) = desc.field(member.type_number, member.member) else {
        return Ok(None);
    };
    let Some(element) = element_of(alloc, desc, field)? else {
        return Ok(None);
    };
    let Some(mut found) = numbered(alloc, root, list, element, bytes)? else {
        return Ok(None);
    };
    found.close(list, bytes, asker);
    if !found.is_of(list) || !found.has_layout(desc, list) {
        return Ok(None);
    }
    Ok(Some(found))
}

impl PlainList {
    /// How many of the elements that have numbers are whole, where each that is said to be is so.
    fn guessed(&self, list: &List, bytes: &Buffer) -> u32
        ensures { result ≤ self.now.most }
    {
        if self.says_sizes() {
            self.most
        } else {
            self.whole_elements(list, bytes)
        }
    }

    /// Whether a node is of an element, or below one, that is as far behind those that have numbers as these go, or farther: then more nodes of elements that
    /// aren't there are before it, if these are all, than there are rests.
    fn is_far_behind(&self, node: &Node) -> bool {
        match tail_of(&node.path, &self.root.path) {
            Tail::Element(element) | Tail::Member(element, _) => element / 2 >= self.most,
            Tail::Other => false,
        }
    }

    /// Whether the elements that have numbers are known to be all of the list. Then if this node is far behind them, those that aren't there have numbers too; if it
    /// isn't, rests have.
    fn close_if(&mut self, ends: bool, asked: Option<&Node>)
        ensures alike { IsAlike self.old self.new }
        ensures most { self.new.most ≡ self.old.most }
        ensures starts { (i : ℕ) → start_of self.new i ≡ start_of self.old i }
    {
        self.missing = match asked {
            Some(node) => self.list.count.get().is_none() && self.is_far_behind(node),
            None => false,
        };
        self.closed = ends;
    }

    /// All elements that are whole have numbers, and no others, if the list ends with the last of them.
    fn close(&mut self, list: &List, bytes: &Buffer, asked: Option<&Node>)
        ensures alike { IsAlike self.old self.new }
    {
        let whole = self.guessed(list, bytes);
        if whole == 0 || !self.ends_with(list, bytes, whole) {
            return;
        }
        if !self.says_sizes() {
            self.most = whole;
        }
        self.close_if(true, asked);
    }

    /// Counts the elements that have numbers anew, as `of` does.
    fn count_anew(&mut self, list: &List, bytes: &Buffer, asked: &Node)
        requires { says_sizes self.old ≡ false }
        ensures { IsAlike self.old self.new }
    {
        let all = most_of(self.first, self.size, self.per);
        if all == 0 {
            return;
        }
        self.most = all;
        self.closed = false;
        self.close(list, bytes, Some(asked));
    }

    /// How an element says its size.
    fn saying(&self) -> Saying
        requires { says_sizes self.now ≡ true }
        ensures { result.size ≡ self.now.size }
    {
        Saying {
            from: self.edge(self.sizer()),
            size: self.size,
            format: self.format,
        }
    }

    /// Tells anew where the elements from one on end, and how many there are.
    #[tactic(auto, using(crate::proofs::Scanned::fewer))]
    fn renew(&mut self, list: &List, bytes: &Buffer, told: u32)
        requires says { says_sizes self.old ≡ true }
        requires few { told ≤ self.old.most }
        ensures alike { IsAlike self.old self.new }
        ensures same { (i : ℕ) → i ≤ told → start_of self.new i ≡ start_of self.old i }
        ensures more { told < self.old.most → told < self.new.most }
        ensures some { told ≤ self.new.most }
    {
        let saying = self.saying();
        let limit = most_sized(list, self.per).max(self.most) as usize + 1;
        let end = end_of_stream(list.stream.to, bytes);
        let Some(starts) = &mut self.starts else {
            return;
        };
        saying.renew(starts, told as usize, bytes, end, limit);
        self.most = starts.len() as u32 - 1;
    }

    /// Counts the elements anew, where they say sizes. So many of the first nodes stay as they are told: where the last end is one of these, the old count stands.
    #[tactic(auto, using(crate::proofs::Retold::told_few, crate::proofs::Retold::sized_told))]
    fn retell_sized(&mut self, list: &List, bytes: &Buffer, kept: u32, asked: &Node)
        requires says { says_sizes self.old ≡ true }
        requires few { kept ≤ size_of self.old }
        ensures { BeginsAs (fold_of self.old) (fold_of self.new) kept }
    {
        if self.type_number.is_none() || kept >= self.elements_size() {
            return;
        }
        let told = self.told_elements(kept);
        self.renew(list, bytes, told);
        let ends = self.ends_with(list, bytes, self.most);
        self.close_if(ends, Some(asked));
    }

    /// Counts the elements anew, of the list that the head gives over these bytes. So many of the first nodes stay as they are told: unless they are before the
    /// last end, as it was and as it is, the old count stands.
    #[tactic(auto, using(crate::proofs::Retold::plain_before))]
    pub(crate) fn retell_list(&mut self, list: &List, bytes: &Buffer, kept: u32, asked: &Node)
        requires { kept ≤ size_of self.old }
        ensures { BeginsAs (fold_of self.old) (fold_of self.new) kept }
    {
        if self.says_sizes() {
            self.retell_sized(list, bytes, kept, asked);
            return;
        }
        let (most, closed, missing) = (self.most, self.closed, self.missing);
        let elements = self.elements_size();
        self.count_anew(list, bytes, asked);
        if kept >= elements.min(self.elements_size()) {
            self.most = most;
            self.closed = closed;
            self.missing = missing;
        }
    }

    /// The numbers of the list whose head gave this over these bytes, if it is plain and its elements are of one size, or say the size of their last field.
    /// Which nodes are behind the elements depends on the node that asked for the head.
    pub fn of(
        alloc: Global,
        desc: &Desc,
        root: &Node,
        given: &Given,
        bytes: &Buffer,
        asker: Option<&Node>,
    ) -> Result<Option<PlainList>, AllocError>
        ensures root { IfOk result (λ found. IfSome found (λ p. (fold_of p).root ≡ root.now)) }
        ensures found { IfOk result (λ found. IfSome found (λ p. IsFound p (plain_pieces desc.now) given.now)) }
    {
        match given {
            Given::Head(Head::List(list)) => of_list(alloc, desc, root, list, bytes, asker),
            _ => Ok(None),
        }
    }
}
