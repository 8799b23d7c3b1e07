//! A module.

ghost use Rattle.std.specs.Prelude.{◌≡◌, ◌<◌, ◌≤◌, length, slice_get, Some};
ghost use Rattle.module_code.specs.Program.{IsModule, IsPlaced, pool_of_brigade, pool_of_pool, text_at, program};

use crate::instr::{Instr, PoolRef};
use crate::seq::Seq;
use std::marker::Model;

/// A filter module: its declared variables, its texts, and the code of its three handlers.
#[derive(Drop)]
pub struct Module {
    pools: Seq<PoolRef>,
    brigades: Seq<PoolRef>,
    texts: Seq<Seq<u8>>,
    code: Seq<Instr>,
    init: u16,
    main: u16,
}

impl Model for Module {
    ghost use Rattle.module_code.specs.Program.{Program, IsModule, program};

    ghost Value = { Program };

    ghost view = { λ m. program m.pools m.brigades m.texts m.code m.init m.main };

    ghost invariant = { λ m. IsModule (program m.pools m.brigades m.texts m.code m.init m.main) };
}

impl Module {
    /// The module of these parts.
    pub fn new(
        declared: (Seq<PoolRef>, Seq<PoolRef>),
        texts: Seq<Seq<u8>>,
        code: Seq<Instr>,
        init: u16,
        main: u16,
    ) -> Self
        requires { IsModule (program declared.0 declared.1 texts code init main) }
        ensures { result ≡ program declared.0 declared.1 texts code init main }
    {
        let (pools, brigades) = declared;
        Module {
            pools,
            brigades,
            texts,
            code,
            init,
            main,
        }
    }

    /// How many instructions there are, 1024 at most.
    pub fn len(&self) -> usize
        ensures count { result ≡ length self.now.code }
        ensures small { result ≤ 1024 }
        ensures sound { IsModule self.now }
    {
        self.code.len()
    }

    /// The instructions.
    pub fn code(&self) -> &[Instr]
        ensures value { result.now ≡ self.now.code }
        ensures sound { IsModule self.now }
    {
        self.code.as_slice()
    }

    /// The parent of each declared pool.
    pub fn pools(&self) -> &[PoolRef]
        ensures { result.now ≡ self.now.pools }
    {
        self.pools.as_slice()
    }

    /// The pool of each declared brigade.
    pub fn brigades(&self) -> &[PoolRef]
        ensures { result.now ≡ self.now.brigades }
    {
        self.brigades.as_slice()
    }

    /// The instruction of a number.
    pub fn at(&self, pc: usize) -> Instr
        requires { pc < length self.now.code }
        ensures value { slice_get self.now.code pc ≡ Some result }
        ensures placed { IsPlaced self.now pc result }
        ensures small { length self.now.code ≤ 1024 }
        ensures few { length self.now.brigades ≤ 8 }
        ensures pools { length self.now.pools ≤ 8 }
    {
        *self.code.at(pc)
    }

    /// The pool that a brigade variable is declared on.
    #[tactic(auto, unfolding(crate::specs::Program::pool_of_brigade))]
    pub fn brigade_pool(&self, brigade: u8) -> PoolRef
        requires { brigade < length self.now.brigades }
        ensures { result ≡ pool_of_brigade self.now brigade }
    {
        *self.brigades.at(usize::from(brigade))
    }

    /// How many pool variables are declared, 8 at most.
    pub fn pool_count(&self) -> u8
        ensures count { result ≡ length self.now.pools }
        ensures few { result ≤ 8 }
    {
        self.pools.len() as u8
    }

    /// How many brigade variables are declared, 8 at most.
    pub fn brigade_count(&self) -> u8
        ensures count { result ≡ length self.now.brigades }
        ensures few { result ≤ 8 }
    {
        self.brigades.len() as u8
    }

    /// The parent that a pool variable is declared with.
    #[tactic(auto, unfolding(crate::specs::Program::pool_of_pool))]
    pub fn pool_parent(&self, pool: u8) -> PoolRef
        requires { pool < length self.now.pools }
        ensures { result ≡ pool_of_pool self.now pool }
    {
        *self.pools.at(usize::from(pool))
    }

    /// The text of a number: at most 255 bytes.
    #[tactic(auto, unfolding(crate::specs::Program::text_at))]
    pub fn text(&self, number: u8) -> &[u8]
        requires { number < length self.now.texts }
        ensures { result.now ≡ text_at self.now number }
    {
        self.texts.at(usize::from(number)).as_slice()
    }

    /// The first instruction of the handler `init`.
    pub fn init(&self) -> usize
        ensures value { result ≡ self.now.init }
        ensures inside { result < length self.now.code }
    {
        usize::from(self.init)
    }

    /// The first instruction of the handler `main`.
    pub fn main(&self) -> usize
        ensures value { result ≡ self.now.main }
        ensures inside { result < length self.now.code }
    {
        usize::from(self.main)
    }
}
