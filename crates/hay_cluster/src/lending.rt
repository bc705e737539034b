//! The parts of a store, which a block of lines takes and gives back.
ghost use Rattle.std.specs.Prelude.{◌≡◌};
ghost use Rattle.hay_cluster.specs.Store.{IsShaped};

use crate::cluster::Cluster;
use hay_directory::Directory;
use hay_disk::{Arm, Disk};
use hay_logical::Logical;
use hay_needle::Settings;
use hay_reader::LaneSeat;

/// The Directory of a store, its volumes in their order, and the arms of its lanes.
pub struct ClusterParts<D: Disk, A> {
    pub settings: Settings,
    pub directory: Directory<D>,
    pub volumes: Vec<Logical<D>>,
    pub arms: Vec<LaneSeat<A>>,
}

impl<D: Disk, A: Arm<D::Piece>> Cluster<D, A> {
    /// Takes a store apart.
    pub fn into_parts(self) -> ClusterParts<D, A>
        ensures settings { result.settings ≡ self.settings }
        ensures directory { result.directory ≡ self.directory }
        ensures volumes { result.volumes.items ≡ self.volumes }
        ensures arms { result.arms.items ≡ self.arms }
        ensures shape { IsShaped self }
    {
        let Cluster {
            settings,
            directory,
            volumes,
            seats,
        } = self;
        ClusterParts {
            settings,
            directory,
            volumes,
            arms: seats,
        }
    }

    /// The store of these parts.
    pub fn from_parts(parts: ClusterParts<D, A>) -> Cluster<D, A>
        requires shape { IsShaped (record {
          settings = parts.settings;
          directory = parts.directory;
          volumes = parts.volumes.items;
          arms = parts.arms.items;
        }) }
        ensures settings { result.settings ≡ parts.settings }
        ensures directory { result.directory ≡ parts.directory }
        ensures volumes { result.volumes ≡ parts.volumes.items }
        ensures arms { result.arms ≡ parts.arms.items }
    {
        let ClusterParts {
            settings,
            directory,
            volumes,
            arms,
        } = parts;
        Cluster {
            settings,
            directory,
            volumes,
            seats: arms,
        }
    }
}
