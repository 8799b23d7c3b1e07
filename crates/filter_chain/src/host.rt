//! The host.

ghost use Rattle.std.specs.Prelude.{◌≡◌, ◌<◌, ◌↔◌, true, false, IfOk, IsErrOf};
ghost use Rattle.run_model.specs.Chains.{IsChain};
ghost use Rattle.run_model.specs.Worlds.{new_world};
ghost use Rattle.life_check.specs.ChainTheorem.{ChainNeverFaults};

use crate::chain::Chain;
use crate::conns::Conns;
use crate::limits::Limits;
use crate::spare::Spare;
use brigade_ops::Brigades;
use bucket_kinds::{Files, Stored};
use bucket_ring::{RawRings, Rings};
use life_check::CheckedChain;
use pool_tree::{PoolError, PoolId, PoolTree};
use run_model::{Module, Payload};
use std::alloc::{AllocError, Global};

/// Connections by number, each with the same chain of filters. They share one tree of pools, one store of brigades, and the files that
/// they read.
#[derive(Drop)]
pub struct Host<F: Files, R: Rings<Stored> = RawRings<Stored>> {
    pub(crate) alloc: Global,
    pub(crate) chain: Chain,
    pub(crate) budget: u64,
    pub(crate) conns: Conns,
    pub(crate) last: u64,
    pub(crate) tree: PoolTree<Payload>,
    pub(crate) store: Brigades<R>,
    pub(crate) files: F,
    pub(crate) spare: Spare,
}

impl<F: Files + Drop, R: Rings<Stored> + Drop> Host<F, R> {
    ghost use Rattle.filter_chain.specs.Hosting.{IsHosting, budget_of, chain_of, files_of};
    ghost use Rattle.filter_chain.specs.Bare.{is_bare};
    ghost use Rattle.filter_chain.specs.Safe.{IsSafe};

    /// No connection, on a chain of modules. Each step is watched: a fault breaks its connection. Names begin with 1. Refused where there is
    /// no memory for the root of the pools.
    pub fn watched(
        alloc: Global,
        files: F,
        modules: Vec<Module>,
        limits: Limits,
    ) -> Result<Self, AllocError>
        requires chain { IsChain modules.items }
        ensures empty { IfOk result (λ host. IsHosting (F.device (files_of host)) host (new_world 1)) }
        ensures chain { IfOk result (λ host. chain_of host ≡ modules.items) }
        ensures budget { IfOk result (λ host. budget_of host ≡ limits.budget) }
        ensures files { IfOk result (λ host. files_of host ≡ files) }
        ensures bare { IfOk result (λ host. is_bare host ≡ false) }
    {
        match Host::watched_at(alloc, files, modules, limits, 1) {
            Ok(host) => Ok(host),
            Err(_) => Err(AllocError),
        }
    }

    /// As `watched`. The names of pools, and those of brigades, buckets and calls, begin with `first`, which is not 0: that is no call's name.
    /// `NamesSpent`: it is `u64::MAX`, which is never given out. `NoMemory`: there is none for the root of the pools.
    pub fn watched_at(
        alloc: Global,
        files: F,
        modules: Vec<Module>,
        limits: Limits,
        first: PoolId,
    ) -> Result<Self, PoolError>
        requires chain { IsChain modules.items }
        requires named { 0 < first }
        ensures empty { IfOk result (λ host. IsHosting (F.device (files_of host)) host (new_world first)) }
        ensures chain { IfOk result (λ host. chain_of host ≡ modules.items) }
        ensures budget { IfOk result (λ host. budget_of host ≡ limits.budget) }
        ensures files { IfOk result (λ host. files_of host ≡ files) }
        ensures bare { IfOk result (λ host. is_bare host ≡ false) }
        ensures spent { IsErrOf result PoolError.NamesSpent ↔ (first ≡ u64.MAX) }
    {
        Host::begun_at(alloc, files, modules, limits, first, false)
    }

    /// No connection, on a chain that was checked: no call answers a fault, and its steps are bare. Names begin with 1. Refused where there is no
    /// memory for the root of the pools.
    pub fn checked(
        alloc: Global,
        files: F,
        chain: CheckedChain,
        limits: Limits,
    ) -> Result<Self, AllocError>
        ensures empty { IfOk result (λ host. IsHosting (F.device (files_of host)) host (new_world 1)) }
        ensures chain { IfOk result (λ host. chain_of host ≡ chain) }
        ensures budget { IfOk result (λ host. budget_of host ≡ limits.budget) }
        ensures files { IfOk result (λ host. files_of host ≡ files) }
        ensures bare { IfOk result (λ host. is_bare host ≡ true) }
        ensures safe { IfOk result (λ host. IsSafe host) }
    {
        match Host::checked_at(alloc, files, chain, limits, 1) {
            Ok(host) => Ok(host),
            Err(_) => Err(AllocError),
        }
    }

    /// As `checked`. Names begin with `first`, and it is refused as `watched_at` is.
    pub fn checked_at(
        alloc: Global,
        files: F,
        chain: CheckedChain,
        limits: Limits,
        first: PoolId,
    ) -> Result<Self, PoolError>
        requires named { 0 < first }
        ensures empty { IfOk result (λ host. IsHosting (F.device (files_of host)) host (new_world first)) }
        ensures chain { IfOk result (λ host. chain_of host ≡ chain) }
        ensures budget { IfOk result (λ host. budget_of host ≡ limits.budget) }
        ensures files { IfOk result (λ host. files_of host ≡ files) }
        ensures bare { IfOk result (λ host. is_bare host ≡ true) }
        ensures safe { IfOk result (λ host. IsSafe host) }
        ensures spent { IsErrOf result PoolError.NamesSpent ↔ (first ≡ u64.MAX) }
    {
        Host::begun_at(alloc, files, chain.into_modules(), limits, first, true)
    }

    /// No connection, on a chain that was checked where the host is to be bare. Refused as `watched_at` is.
    fn begun_at(
        alloc: Global,
        files: F,
        modules: Vec<Module>,
        limits: Limits,
        first: PoolId,
        bare: bool,
    ) -> Result<Self, PoolError>
        requires chain { IsChain modules.items }
        requires checked { bare ≡ true → ChainNeverFaults modules.items }
        requires named { 0 < first }
        ensures empty { IfOk result (λ host. IsHosting (F.device (files_of host)) host (new_world first)) }
        ensures chain { IfOk result (λ host. chain_of host ≡ modules.items) }
        ensures budget { IfOk result (λ host. budget_of host ≡ limits.budget) }
        ensures files { IfOk result (λ host. files_of host ≡ files) }
        ensures bare { IfOk result (λ host. is_bare host ≡ bare) }
        ensures spent { IsErrOf result PoolError.NamesSpent ↔ (first ≡ u64.MAX) }
    {
        let tree = PoolTree::new(alloc, first)?;
        Ok(Host {
            alloc,
            chain: Chain { modules, bare },
            budget: limits.budget,
            conns: Conns::new(alloc),
            last: 0,
            tree,
            store: Brigades::new(alloc, first),
            files,
            spare: Spare::new(alloc),
        })
    }

    /// The chain.
    #[tactic(auto, unfolding(crate::specs::Hosting::chain_of))]
    pub fn modules(&self) -> &[Module]
        ensures { result.now ≡ chain_of self.now }
    {
        self.chain.modules.as_slice()
    }

    /// How many instructions a connection executes at most from an open, begin or bring on.
    #[tactic(auto, unfolding(crate::specs::Hosting::budget_of))]
    pub fn budget(&self) -> u64
        ensures { result ≡ budget_of self.now }
    {
        self.budget
    }

    /// The files.
    pub fn files(&self) -> &F
        ensures { result.now ≡ files_of self.now }
    {
        &self.files
    }
}
