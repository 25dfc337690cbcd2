//! The grammar as a table: each part with its lines.
ghost use Rattle.std.specs.Prelude.{◌≡◌, map};
ghost use Rattle.iq_grammar.specs.Grammar as spec;
ghost use Rattle.iq_grammar.specs.Grammar.{the_line};

use iq_ast::Op;
use iq_base::{IndexKind, Kind as ColumnKind};
use iq_tokens::{Kind, Mark};

/// The forms of statements.
#[derive(Clone, Copy, Debug, PartialEq, Eq)]
pub enum Form {
    CreateTable,
    DropTable,
    CreateIndex,
    DropIndex,
    Insert,
    Load,
    Delete,
    Update,
    Select,
    Begin,
    Commit,
    Rollback,
    Savepoint,
    BackTo,
    Release,
    Sync,
}

/// The aggregates.
#[derive(Clone, Copy, Debug, PartialEq, Eq)]
pub enum Aggregate {
    Count,
    Sum,
    Min,
    Max,
}

/// The forms of directives, which belong to no session: the three declarations of a node, that of a session, and the steps.
#[derive(Clone, Copy, Debug, PartialEq, Eq)]
pub enum Order {
    Coordinator,
    Writer,
    Reader,
    Session,
    Apply,
    Report,
    Lose,
    Take,
    Restart,
    Exclude,
    Include,
    Space,
    Versions,
}

/// What a token at a place of the grammar does to the statement or the directive under way.
#[derive(Clone, Copy, Debug)]
pub enum Role {
    Skip,
    Form(Form),
    Order(Order),
    Number,
    Explain,
    Table,
    Name,
    Index(IndexKind),
    Indexed,
    Second,
    Column,
    Kind(ColumnKind),
    Length,
    NotNull,
    Value,
    Row,
    Rows,
    Changed,
    NewValue,
    Item,
    CountAll,
    Aggregate(Aggregate),
    Aggregated,
    Grouped,
    Ordered,
    Descending,
    Negate,
    Opened,
    Closed,
    OrNext,
    Tested,
    Compare(Op),
    Compared,
    ComparedColumn,
    Outside,
    Low,
    High,
    Member,
    OneOf,
    IsNull,
}

/// A part of the grammar.
#[derive(Clone, Copy, Debug, PartialEq, Eq)]
pub enum Part {
    Statement,
    Directive,
    Declared,
    Status,
    BackTo,
    Created,
    OneColumn,
    Column,
    MoreColumns,
    Kind,
    Nullness,
    Dropped,
    Tuple,
    MoreTuples,
    Value,
    MoreValues,
    NewValue,
    MoreChanges,
    Query,
    From,
    MoreItems,
    Item,
    Counted,
    GroupBy,
    MoreGroups,
    OrderBy,
    MoreOrders,
    Way,
    Where,
    Condition,
    MoreAnd,
    MoreOr,
    Test,
    Within,
    Nulled,
    Operand,
    Low,
    High,
    Member,
    MoreMembers,
    End,
}

/// One step of a line of the grammar.
#[derive(Clone, Copy, Debug)]
pub enum Symbol {
    Word(Kind, Role),
    Go(Part),
}

/// A line of the grammar: its first token, and what follows.
#[derive(Clone, Copy, Debug)]
pub struct Line {
    pub kind: Kind,
    pub role: Role,
    pub rest: &'static [Symbol],
}

/// A kind of token by its word: `Name`, `Number` and `Text` are any such token, every other word is a mark.
macro_rules! kind {
    (Name) => { Kind::Name };
    (Number) => { Kind::Number };
    (Text) => { Kind::Text };
    ($mark:ident) => { Kind::Mark(Mark::$mark) };
}

/// Symbols: a kind of token, one with its role behind `=`, or a part in angle brackets.
macro_rules! symbols {
    (@ [$($done:expr),*]) => { &[$($done),*] };
    (@ [$($done:expr),*] < $part:ident > $($more:tt)*) => { symbols!(@ [$($done,)* Symbol::Go(Part::$part)] $($more)*) };
    (@ [$($done:expr),*] $kind:ident = $role:ident ( $of:ident :: $one:ident ) $($more:tt)*) => { symbols!(@ [$($done,)* Symbol::Word(kind!($kind), Role::$role($of::$one))] $($more)*) };
    (@ [$($done:expr),*] $kind:ident = $role:ident $($more:tt)*) => { symbols!(@ [$($done,)* Symbol::Word(kind!($kind), Role::$role)] $($more)*) };
    (@ [$($done:expr),*] $kind:ident $($more:tt)*) => { symbols!(@ [$($done,)* Symbol::Word(kind!($kind), Role::Skip)] $($more)*) };
}

/// A line of the grammar, which begins with a kind of token and its role.
macro_rules! line {
    ($kind:ident = $role:ident ( $of:ident :: $one:ident ) $($rest:tt)*) => { Line { kind: kind!($kind), role: Role::$role($of::$one), rest: symbols!(@ [] $($rest)*) } };
    ($kind:ident = $role:ident $($rest:tt)*) => { Line { kind: kind!($kind), role: Role::$role, rest: symbols!(@ [] $($rest)*) } };
    ($kind:ident $($rest:tt)*) => { Line { kind: kind!($kind), role: Role::Skip, rest: symbols!(@ [] $($rest)*) } };
}

/// The lines of a part: each is one way to spell it.
#[tactic(auto, unfolding(crate::specs::Grammar::lines))]
pub fn lines(part: Part) -> &'static [Line]
    ensures { map the_line result.now ≡ spec.lines part }
{
    match part {
        Part::Statement => &[
            line!(Create <Created>),
            line!(Drop <Dropped>),
            line!(Insert=Form(Form::Insert) Into Name=Table Values <Tuple> <MoreTuples>),
            line!(Load=Form(Form::Load) Table Name=Table Rows Number=Rows),
            line!(Delete=Form(Form::Delete) From Name=Table <Where>),
            line!(Update=Form(Form::Update) Name=Table Set Name=Changed Equal <NewValue> <MoreChanges> <Where>),
            line!(Explain=Explain Select=Form(Form::Select) <Query>),
            line!(Select=Form(Form::Select) <Query>),
            line!(Begin=Form(Form::Begin) Transaction),
            line!(Commit = Form(Form::Commit)),
            line!(Rollback=Form(Form::Rollback) <BackTo>),
            line!(Savepoint=Form(Form::Savepoint) Name=Name),
            line!(Release=Form(Form::Release) Savepoint Name=Name),
            line!(Sync = Form(Form::Sync)),
        ],
        Part::Directive => &[
            line!(Node Name=Name <Declared>),
            line!(Session=Order(Order::Session) Name=Name On Name=Table),
            line!(Apply=Order(Order::Apply) Name=Name),
            line!(Report=Order(Order::Report) Name=Name),
            line!(Lose=Order(Order::Lose) Number=Number),
            line!(Take=Order(Order::Take) Number=Number),
            line!(Restart=Order(Order::Restart) Name=Name),
            line!(Alter Multiplex Server Name=Name Status <Status>),
            line!(Space = Order(Order::Space)),
            line!(Versions = Order(Order::Versions)),
        ],
        Part::Declared => &[
            line!(Coordinator = Order(Order::Coordinator)),
            line!(Writer = Order(Order::Writer)),
            line!(Reader = Order(Order::Reader)),
        ],
        Part::Status => &[
            line!(Excluded = Order(Order::Exclude)),
            line!(Included = Order(Order::Include)),
        ],
        Part::BackTo => &[line!(To=Form(Form::BackTo) Savepoint Name=Name)],
        Part::Created => &[
            line!(Table=Form(Form::CreateTable) Name=Table Open <Column> <MoreColumns> Close),
            line!(Lf=Index(IndexKind::Lf) <OneColumn>),
            line!(Hg=Index(IndexKind::Hg) <OneColumn>),
            line!(Hng=Index(IndexKind::Hng) <OneColumn>),
            line!(Cmp=Index(IndexKind::Cmp) Index Name=Name On Name=Table Open Name=Indexed Comma Name=Second Close),
        ],
        Part::OneColumn => &[line!(Index Name=Name On Name=Table Open Name=Indexed Close)],
        Part::Column => &[line!(Name=Column <Kind> <Nullness>)],
        Part::MoreColumns => &[line!(Comma <Column> <MoreColumns>)],
        Part::Kind => &[
            line!(Int = Kind(ColumnKind::Int)),
            line!(Bigint = Kind(ColumnKind::Big)),
            line!(Varchar Open Number=Length Close),
        ],
        Part::Nullness => &[line!(Null), line!(Not Null=NotNull)],
        Part::Dropped => &[
            line!(Table=Form(Form::DropTable) Name=Table),
            line!(Index=Form(Form::DropIndex) Name=Table Dot Name=Name),
        ],
        Part::Tuple => &[line!(Open <Value> <MoreValues> Close=Row)],
        Part::MoreTuples => &[line!(Comma <Tuple> <MoreTuples>)],
        Part::Value => &[
            line!(Number = Value),
            line!(Text = Value),
            line!(Null = Value),
        ],
        Part::MoreValues => &[line!(Comma <Value> <MoreValues>)],
        Part::NewValue => &[
            line!(Number = NewValue),
            line!(Text = NewValue),
            line!(Null = NewValue),
        ],
        Part::MoreChanges => &[line!(Comma Name=Changed Equal <NewValue> <MoreChanges>)],
        Part::Query => &[
            line!(Star <From>),
            line!(Name=Item <MoreItems> <From>),
            line!(Count=Aggregate(Aggregate::Count) Open <Counted> Close <MoreItems> <From>),
            line!(Sum=Aggregate(Aggregate::Sum) Open Name=Aggregated Close <MoreItems> <From>),
            line!(Min=Aggregate(Aggregate::Min) Open Name=Aggregated Close <MoreItems> <From>),
            line!(Max=Aggregate(Aggregate::Max) Open Name=Aggregated Close <MoreItems> <From>),
        ],
        Part::From => &[line!(From Name=Table <Where> <GroupBy> <OrderBy>)],
        Part::MoreItems => &[line!(Comma <Item> <MoreItems>)],
        Part::Item => &[
            line!(Name = Item),
            line!(Count=Aggregate(Aggregate::Count) Open <Counted> Close),
            line!(Sum=Aggregate(Aggregate::Sum) Open Name=Aggregated Close),
            line!(Min=Aggregate(Aggregate::Min) Open Name=Aggregated Close),
            line!(Max=Aggregate(Aggregate::Max) Open Name=Aggregated Close),
        ],
        Part::Counted => &[line!(Star = CountAll), line!(Name = Aggregated)],
        Part::GroupBy => &[line!(Group By Name=Grouped <MoreGroups>)],
        Part::MoreGroups => &[line!(Comma Name=Grouped <MoreGroups>)],
        Part::OrderBy => &[line!(Order By Name=Ordered <Way> <MoreOrders>)],
        Part::MoreOrders => &[line!(Comma Name=Ordered <Way> <MoreOrders>)],
        Part::Way => &[line!(Asc), line!(Desc = Descending)],
        Part::Where => &[line!(Where <Condition> <MoreAnd> <MoreOr>)],
        Part::Condition => &[
            line!(Not=Negate <Condition>),
            line!(Open=Opened <Condition> <MoreAnd> <MoreOr> Close=Closed),
            line!(Name=Tested <Test>),
        ],
        Part::MoreAnd => &[line!(And <Condition> <MoreAnd>)],
        Part::MoreOr => &[line!(Or=OrNext <Condition> <MoreAnd> <MoreOr>)],
        Part::Test => &[
            line!(Equal=Compare(Op::Eq) <Operand>),
            line!(Differs=Compare(Op::Ne) <Operand>),
            line!(Less=Compare(Op::Lt) <Operand>),
            line!(AtMost=Compare(Op::Le) <Operand>),
            line!(More=Compare(Op::Gt) <Operand>),
            line!(AtLeast=Compare(Op::Ge) <Operand>),
            line!(Not=Outside <Within>),
            line!(Between <Low> And <High>),
            line!(In Open <Member> <MoreMembers> Close=OneOf),
            line!(Is <Nulled>),
        ],
        Part::Within => &[
            line!(Between <Low> And <High>),
            line!(In Open <Member> <MoreMembers> Close=OneOf),
        ],
        Part::Nulled => &[line!(Null = IsNull), line!(Not=Outside Null=IsNull)],
        Part::Operand => &[
            line!(Number = Compared),
            line!(Text = Compared),
            line!(Null = Compared),
            line!(Name = ComparedColumn),
        ],
        Part::Low => &[line!(Number = Low), line!(Text = Low), line!(Null = Low)],
        Part::High => &[line!(Number = High), line!(Text = High), line!(Null = High)],
        Part::Member => &[
            line!(Number = Member),
            line!(Text = Member),
            line!(Null = Member),
        ],
        Part::MoreMembers => &[line!(Comma <Member> <MoreMembers>)],
        Part::End => &[line!(Semicolon)],
    }
}

/// Whether the part may be left out.
#[tactic(auto, unfolding(crate::specs::Grammar::may_lack))]
pub fn may_lack(part: Part) -> bool
    ensures { result ≡ spec.may_lack part }
{
    matches!(
        part,
        Part::BackTo
            | Part::MoreColumns
            | Part::Nullness
            | Part::MoreTuples
            | Part::MoreValues
            | Part::MoreChanges
            | Part::MoreItems
            | Part::GroupBy
            | Part::MoreGroups
            | Part::OrderBy
            | Part::MoreOrders
            | Part::Way
            | Part::Where
            | Part::MoreAnd
            | Part::MoreOr
            | Part::MoreMembers
            | Part::End
    )
}
