//! What all cases are run under.
ghost use Rattle.std.specs.Prelude.{length};
ghost use Rattle.std.proofs.Props.{props};
ghost use Rattle.mls_scheme.specs.Scheme.{AreUnder};

use case_tables::Texts;
use mls_lattice::Policy;
use mls_scheme::SchemesFile;
use std::alloc::Global;

/// The name that tables give a site, and those of its files.
struct Names {
    site: &'static str,
    policy: &'static str,
    schemes: &'static str,
    transactions: &'static str,
    certificates: &'static str,
}

/// The sites.
static SITES: [Names; 5] = [
    Names {
        site: "policy.toml",
        policy: "policy.toml",
        schemes: "schemes.toml",
        transactions: "transactions.txt",
        certificates: "certificates.txt",
    },
    Names {
        site: "other.policy.toml",
        policy: "other.policy.toml",
        schemes: "schemes.toml",
        transactions: "transactions.txt",
        certificates: "certificates.txt",
    },
    Names {
        site: "five.policy.toml",
        policy: "five.policy.toml",
        schemes: "schemes.toml",
        transactions: "transactions.txt",
        certificates: "certificates.txt",
    },
    Names {
        site: "wide.policy.toml wide.schemes.toml",
        policy: "wide.policy.toml",
        schemes: "wide.schemes.toml",
        transactions: "transactions.txt",
        certificates: "certificates.txt",
    },
    Names {
        site: "pair",
        policy: "policy.toml",
        schemes: "schemes.toml",
        transactions: "pair.transactions.txt",
        certificates: "pair.certificates.txt",
    },
];

/// A policy and its schemes, and the texts of the stored transactions and their certificates.
#[derive(Drop)]
pub struct Site<'a> {
    name: &'static str,
    pub policy: Policy,
    pub file: SchemesFile,
    pub transactions: &'a str,
    pub certificates: &'a str,
    ghost under: { AreUnder (length policy.labels) file.schemes } by { Prim.hlevel props },
}

impl<'a> Site<'a> {
    /// The site of these files, if they are read.
    fn read(alloc: Global, texts: &'a Texts, names: &Names) -> Option<Site<'a>> {
        let policy = Policy::read(alloc, texts.named(names.policy).as_bytes()).ok()?;
        let schemes = texts.named(names.schemes).as_bytes();
        let file = SchemesFile::read(alloc, &policy, schemes).ok()?;
        Some(Site {
            name: names.site,
            policy,
            file,
            transactions: texts.named(names.transactions),
            certificates: texts.named(names.certificates),
        })
    }
}

/// What all cases share. It is lent: a function that owns a policy and schemes is dear to prove.
#[derive(Drop)]
pub struct Bench<'a> {
    pub alloc: Global,
    pub texts: &'a Texts,
    sites: Vec<Site<'a>>,
}

impl<'a> Bench<'a> {
    /// All sites of these files, if they are read.
    pub fn read(alloc: Global, texts: &'a Texts) -> Option<Bench<'a>> {
        let mut sites = Vec::new(alloc);
        for names in &SITES {
            sites.push(Site::read(alloc, texts, names)?).ok()?;
        }
        Some(Bench {
            alloc,
            texts,
            sites,
        })
    }

    /// The site of a name.
    pub fn site(&self, name: &str) -> Option<&Site<'a>> {
        for site in &self.sites {
            if site.name == name {
                return Some(site);
            }
        }
        None
    }
}
