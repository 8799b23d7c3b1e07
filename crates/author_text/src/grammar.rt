//! Reading a whole filter.

ghost use Rattle.std.specs.Prelude.{◌≡◌, ◌+◌, codes, length, map, option_map, IsTrue};
ghost use Rattle.author_text.specs.PrintedSource.{event_text};
ghost use Rattle.author_text.specs.ReadSource.{ends_decls, event_among, event_in, filter_name_at, name_alone, needed_most, read_constant, read_decl, read_declared, read_def};
ghost use Rattle.author_text.specs.ReadSource.{read_filter, read_filter_name, read_handler, read_handlers, read_hold, read_limit, read_number, read_other_trigger};
ghost use Rattle.author_text.specs.ReadSource.{read_param, read_setting, read_table, read_trigger, read_var};
ghost use Rattle.author_text.specs.ReadTexts.{read_items, read_list, read_listed, read_name_is};
ghost use Rattle.author_text.specs.Reading.{ReadsTokens, ReadsAs, unread_of};
ghost use Rattle.author_text.specs.Trees.{decl_of, expr_of, handler_of, name_of, source_of, trigger_of};
ghost use Rattle.author_text.specs.UnreadTokens.{needed, next_token};

use crate::parser::Parser;
use crate::source::{Decl, Def, Expr, Handler, Name, Setting, Source, Trigger};
use crate::stmts::MAX_DEPTH;
use crate::token::Kind;
use crate::tree::Event;

/// The events of handlers that have no name and no text.
const EVENTS: [Event; 6] = [
    Event::Start,
    Event::Call,
    Event::Bucket,
    Event::Flush,
    Event::Eos,
    Event::Return,
];

/// How an event is written.
pub fn event_text(event: Event) -> &'static str
    ensures { result.now ≡ event_text event }
{
    match event {
        Event::Start => "start",
        Event::Call => "call",
        Event::Bucket => "bucket",
        Event::Flush => "flush",
        Event::Return => "return",
        Event::Eos => "eos",
    }
}

impl<'a, 't> Parser<'a, 't> {
    /// A whole filter.
    #[tactic(auto, unfolding(crate::specs::ReadSource::read_filter))]
    pub fn filter(&mut self) -> Source<'a>
        ensures { ReadsAs self.old self.new (source_of result) (read_filter (unread_of self.old)) }
    {
        self.need("filter");
        let name = self.filter_name();
        let decls = self.decls();
        let handlers = self.handlers();
        Source {
            name,
            decls,
            handlers,
        }
    }

    /// The name of the filter, which may be a word of the language.
    #[tactic(auto, unfolding(crate::specs::ReadSource::read_filter_name))]
    fn filter_name(&mut self) -> &'a [u8]
        ensures { ReadsAs self.old self.new result.now (read_filter_name (unread_of self.old)) }
    {
        let name = self.name_or_word();
        self.check_hyphen();
        name
    }

    fn name_or_word(&mut self) -> &'a [u8]
        ensures { ReadsAs self.old self.new result.now (filter_name_at (next_token (unread_of self.old)) (unread_of self.old)) }
    {
        if let Kind::Word = self.token().kind {
            self.take().text
        } else {
            self.name("the name of the filter").text
        }
    }

    /// What is declared, up to the first `on`.
    fn decls(&mut self) -> Vec<Decl<'a>>
        ensures { ReadsAs self.old self.new (map decl_of result.items) (read_items ends_decls read_decl (length (unread_of self.old).tokens + 1) (unread_of self.old)) }
    {
        let mut decls = Vec::new(self.alloc);
        let count = self.left();
        for _ in 0..count {
            if self.ends_decls() {
                break;
            }
            let decl = self.decl();
            self.append(&mut decls, decl);
        }
        decls
    }

    /// Whether nothing more is declared.
    fn ends_decls(&self) -> bool
        ensures { IsTrue self.now.faults.is_whole → result ≡ ends_decls (unread_of self.now) }
    {
        self.at("on") || self.is_end()
    }

    fn handlers(&mut self) -> Vec<Handler<'a>>
        ensures { ReadsAs self.old self.new (map handler_of result.items) (read_handlers (unread_of self.old)) }
    {
        let mut handlers = Vec::new(self.alloc);
        let count = self.left();
        for _ in 0..count {
            if self.is_end() {
                break;
            }
            let handler = self.handler();
            self.append(&mut handlers, handler);
        }
        handlers
    }

    #[tactic(auto, unfolding(crate::specs::ReadSource::read_handler))]
    fn handler(&mut self) -> Handler<'a>
        ensures { ReadsAs self.old self.new (handler_of result) (read_handler (unread_of self.old)) }
    {
        let place = self.token().place;
        self.need_on();
        let on = self.trigger();
        let body = self.block(MAX_DEPTH);
        Handler { on, body, place }
    }

    /// Passes `on`, which must be next.
    fn need_on(&mut self)
        ensures { ReadsTokens self.old self.new (unread_of self.new ≡ needed (codes "on") (unread_of self.old)) }
    {
        if !self.eat("on") {
            self.says_of(
                &["`on` is due here, not `"],
                "`: what is declared stands before the first `on`",
            );
        }
    }

    /// What follows `on`.
    #[tactic(auto, unfolding(crate::specs::ReadSource::read_trigger))]
    fn trigger(&mut self) -> Trigger<'a>
        ensures { ReadsAs self.old self.new (trigger_of result) (read_trigger (unread_of self.old)) }
    {
        match self.event() {
            Some(event) => {
                self.take();
                Trigger::Event(event)
            }
            None => self.other_trigger(),
        }
    }

    /// The event that is next.
    #[tactic(auto, unfolding(crate::specs::ReadSource::event_in))]
    fn event(&self) -> Option<Event>
        ensures { IsTrue self.now.faults.is_whole → result ≡ event_in (next_token (unread_of self.now)) }
    {
        self.event_among(&EVENTS)
    }

    /// The first of these events that is next.
    fn event_among(&self, events: &[Event]) -> Option<Event>
        ensures { IsTrue self.now.faults.is_whole → result ≡ event_among (next_token (unread_of self.now)) events.now }
    {
        for event in events {
            if self.at(event_text(*event)) {
                return Some(*event);
            }
        }
        None
    }

    /// What follows `on` where it is no event alone.
    fn other_trigger(&mut self) -> Trigger<'a>
        ensures { ReadsAs self.old self.new (trigger_of result) (read_other_trigger (unread_of self.old)) }
    {
        if self.eat("byte") {
            return Trigger::Byte(self.name("a name for the byte"));
        }
        self.need_match();
        Trigger::Match(self.text())
    }

    /// Passes `match`, which must be next.
    fn need_match(&mut self)
        ensures { ReadsTokens self.old self.new (unread_of self.new ≡ needed (codes "match") (unread_of self.old)) }
    {
        if !self.eat("match") {
            self.says_of(
                &[
                    "`start`, `call`, `bucket`, `byte`, `match`, `flush`, `eos` or `return` is due after `on`, not `",
                ],
                "`",
            );
        }
    }

    /// What is declared before the first `on`.
    #[tactic(auto, unfolding(crate::specs::ReadSource::read_decl))]
    fn decl(&mut self) -> Decl<'a>
        ensures { ReadsAs self.old self.new (decl_of result) (read_decl (unread_of self.old)) }
    {
        let is_conn = self.eat("conn");
        self.declared(is_conn)
    }

    /// What is declared behind `conn`, where it stands there.
    fn declared(&mut self, is_conn: bool) -> Decl<'a>
        ensures { ReadsAs self.old self.new (decl_of result) (read_declared is_conn (unread_of self.old)) }
    {
        if self.eat("var") {
            return self.var(is_conn);
        }
        if self.eat("hold") {
            return self.hold(is_conn);
        }
        if is_conn {
            self.says("`var` or `hold` is due after `conn`");
        }
        self.constant()
    }

    /// A name, and `=`.
    #[tactic(auto, unfolding(crate::specs::ReadTexts::read_name_is))]
    pub fn name_is(&mut self) -> Name<'a>
        ensures { ReadsAs self.old self.new (name_of result) (read_name_is (unread_of self.old)) }
    {
        let name = self.new_name("a name");
        self.need("=");
        name
    }

    #[tactic(auto, unfolding(crate::specs::ReadSource::read_var))]
    fn var(&mut self, is_conn: bool) -> Decl<'a>
        ensures { ReadsAs self.old self.new (decl_of result) (read_var is_conn (unread_of self.old)) }
    {
        let name = self.name_is();
        let value = self.expr();
        Decl::Var {
            name,
            is_conn,
            value,
        }
    }

    #[tactic(auto, unfolding(crate::specs::ReadSource::read_hold))]
    fn hold(&mut self, is_conn: bool) -> Decl<'a>
        ensures { ReadsAs self.old self.new (decl_of result) (read_hold is_conn (unread_of self.old)) }
    {
        let name = self.new_name("a name");
        let limit = self.limit();
        Decl::Hold {
            name,
            is_conn,
            limit,
        }
    }

    /// How many bytes a list holds, where `at` is next.
    #[tactic(auto, unfolding(crate::specs::ReadSource::read_limit))]
    fn limit(&mut self) -> Option<Expr<'a>>
        ensures { ReadsAs self.old self.new (option_map expr_of result) (read_limit (unread_of self.old)) }
    {
        if !self.eat("at") {
            return None;
        }
        self.need_most();
        Some(self.expr())
    }

    /// Passes the name `most`, which is a word of the language here alone, and must be next.
    #[tactic(auto, unfolding(crate::specs::ReadSource::needed_most))]
    fn need_most(&mut self)
        ensures { ReadsTokens self.old self.new (unread_of self.new ≡ needed_most (unread_of self.old)) }
    {
        let token = self.token();
        if matches!(token.kind, Kind::Name) && token.text == b"most".as_slice() {
            self.take();
        } else {
            self.due("`most`");
        }
    }

    /// What is declared and does not change.
    #[tactic(auto, unfolding(crate::specs::ReadSource::read_constant))]
    fn constant(&mut self) -> Decl<'a>
        ensures { ReadsAs self.old self.new (decl_of result) (read_constant (unread_of self.old)) }
    {
        if self.eat("const") {
            return self.number();
        }
        if self.eat("param") {
            return self.param();
        }
        if self.eat("table") {
            return self.table();
        }
        self.need_def();
        self.def()
    }

    /// Passes `def`, which must be next.
    fn need_def(&mut self)
        ensures { ReadsTokens self.old self.new (unread_of self.new ≡ needed (codes "def") (unread_of self.old)) }
    {
        if !self.eat("def") {
            self.due(
                "a declaration (`var`, `conn`, `hold`, `const`, `param`, `table`, `def`) or `on`",
            );
        }
    }

    /// What follows `const`.
    #[tactic(auto, unfolding(crate::specs::ReadSource::read_number))]
    fn number(&mut self) -> Decl<'a>
        ensures { ReadsAs self.old self.new (decl_of result) (read_number (unread_of self.old)) }
    {
        let name = self.name_is();
        let value = self.expr();
        Decl::Const { name, value }
    }

    /// What follows `param`.
    #[tactic(auto, unfolding(crate::specs::ReadSource::read_param))]
    fn param(&mut self) -> Decl<'a>
        ensures { ReadsAs self.old self.new (decl_of result) (read_param (unread_of self.old)) }
    {
        let name = self.name_is();
        self.setting(name)
    }

    /// What a `param` is set to.
    #[tactic(auto, unfolding(crate::specs::ReadSource::read_setting))]
    fn setting(&mut self, name: Name<'a>) -> Decl<'a>
        ensures { ReadsAs self.old self.new (decl_of result) (read_setting (name_of name.entry) (unread_of self.old)) }
    {
        let value = if self.is_text() {
            Setting::Text(self.quoted())
        } else {
            Setting::Number(self.expr())
        };
        Decl::Param { name, value }
    }

    /// What follows `table`.
    #[tactic(auto, unfolding(crate::specs::ReadSource::read_table))]
    fn table(&mut self) -> Decl<'a>
        ensures { ReadsAs self.old self.new (decl_of result) (read_table (unread_of self.old)) }
    {
        let name = self.name_is();
        let text = self.text();
        Decl::Table { name, text }
    }

    /// What follows `def`.
    #[tactic(auto, unfolding(crate::specs::ReadSource::read_def))]
    fn def(&mut self) -> Decl<'a>
        ensures { ReadsAs self.old self.new (decl_of result) (read_def (unread_of self.old)) }
    {
        let name = self.new_name("a name");
        self.need("(");
        let params = self.params();
        let body = self.block(MAX_DEPTH);
        Decl::Def(Def { name, params, body })
    }

    /// The names up to a closing bracket.
    #[tactic(auto, unfolding(crate::specs::ReadTexts::read_list))]
    fn params(&mut self) -> Vec<Name<'a>>
        ensures { ReadsAs self.old self.new (map name_of result.items) (read_list name_alone (unread_of self.old)) }
    {
        let params = self.param_items();
        self.need(")");
        params
    }

    /// Names with commas between them, up to a closing bracket.
    fn param_items(&mut self) -> Vec<Name<'a>>
        ensures { ReadsAs self.old self.new (map name_of result.items)
            (read_listed name_alone (length (unread_of self.old).tokens + 1) (unread_of self.old)) }
    {
        let mut params = Vec::new(self.alloc);
        let count = self.left();
        for _ in 0..count {
            if self.at(")") {
                break;
            }
            let param = self.name("a name");
            self.append(&mut params, param);
            if !self.eat(",") {
                break;
            }
        }
        params
    }
}
