//! Scripts and the transcripts that they must have.

/// A script, under these words, and its transcript.
#[derive(Drop)]
pub struct Case {
    pub words: &'static [&'static str],
    pub script: &'static [u8],
    pub transcript: &'static [u8],
}

const RUN: &[&str] = &["run"];

pub const CASES: [Case; 32] = [
    Case {
        words: RUN,
        script: b"put 0 1 68656c6c6f\nread 0 1 903df1a0ade0b876\n",
        transcript: b"haystack 1 1 1 67108864\n1 stored 0 1 1 903df1a0ade0b876\n2 photo 0 0 1 1 68656c6c6f\n",
    },
    Case {
        words: RUN,
        script: b"",
        transcript: b"haystack 1 1 1 67108864\n",
    },
    // A photo that is put again is read as it was put last. The last line has no line feed.
    Case {
        words: RUN,
        script: b"put 0 1 61\nput 0 1 62\nread 0 1 903df1a0ade0b876",
        transcript: b"haystack 1 1 1 67108864\n1 stored 0 1 1 903df1a0ade0b876\n2 stored 0 2 1 903df1a0ade0b876\n3 photo 0 0 2 1 62\n",
    },
    // Another cookie, and a pair that was never put.
    Case {
        words: RUN,
        script: b"put 0 1 61\nread 0 1 0\nread 5 1 0\nread 0 1 903DF1A0ADE0B876\n",
        transcript: b"haystack 1 1 1 67108864\n1 stored 0 1 1 903df1a0ade0b876\n2 wrong cookie 0 0 1 1\n3 unknown 1\n4 photo 0 0 1 1 61\n",
    },
    // Lines that say nothing, and lines that are no command.
    Case {
        words: RUN,
        script: b"# note\n\nput 0 1 6\nput 18446744073709551616 1 61\nend\nPUT 0 1 61\nput 0 1 61\r\nlanes 9\n \t# \xff\nput 0 1\xff 61\n",
        transcript: b"haystack 1 1 1 67108864\n3 bad line\n4 bad line\n5 bad line\n6 bad line\n7 stored 0 1 1 903df1a0ade0b876\n8 bad line\n10 bad line\n",
    },
    // The cookie of key 2^57, and a photo whose bytes are all equal.
    Case {
        words: RUN,
        script: b"put 144115188075855872 4294967295 x16:Ab\nread 144115188075855872 04294967295 3736d58c374dc6c2\n",
        transcript: b"haystack 1 1 1 67108864\n1 stored 0 1 1 3736d58c374dc6c2\n2 photo 0 0 1 1 x16:ab\n",
    },
    // A wrong cookie is refused while the photo stands, and not asked for any more once it is deleted.
    Case {
        words: RUN,
        script: b"put 0 1 61\nread 0 1 0\ndel 0 1\nread 0 1 0\nread 5 1 0\n",
        transcript: b"haystack 1 1 1 67108864\n1 stored 0 1 1 903df1a0ade0b876\n2 wrong cookie 0 0 1 1\n3 deleted 0 2 1\n4 gone 0 0 2 1\n5 unknown 1\n",
    },
    // A photo that is deleted is gone, before its cookie is looked at.
    Case {
        words: RUN,
        script: b"put 0 1 61\nput 0 1 62\nread 0 1 903df1a0ade0b876\ndel 0 1\nread 0 1 903df1a0ade0b876\ndel 0 1\nread 0 1 0\ndel 0 2\n",
        transcript: b"haystack 1 1 1 67108864\n1 stored 0 1 1 903df1a0ade0b876\n2 stored 0 2 1 903df1a0ade0b876\n3 photo 0 0 2 1 62\n4 deleted 0 3 1\n5 gone 0 0 3 1\n6 gone 0 3 1\n7 gone 0 0 3 1\n8 unknown 1\n",
    },
    // A deleted photo stays deleted behind a restart, and may be put again.
    Case {
        words: RUN,
        script: b"put 0 1 61\nput 0 2 62\ndel 0 1\nrestart\nread 0 1 903df1a0ade0b876\nread 0 2 903df1a0ade0b876\nput 0 1 63\nrestart 7\nread 0 1 903df1a0ade0b876\n",
        transcript: b"haystack 1 1 1 67108864\n1 stored 0 1 1 903df1a0ade0b876\n2 stored 0 2 2 903df1a0ade0b876\n3 deleted 0 3 2\n4 restarted 2\n5 gone 0 0 0 2\n6 photo 0 0 0 2 62\n7 stored 0 1 2 903df1a0ade0b876\n8 restarted 2\n9 photo 0 0 0 2 63\n",
    },
    // The smallest volume, filled to its last byte.
    Case {
        words: &["run", "--capacity", "4096"],
        script: b"put 0 1 x3976:61\nput 0 1 -\nput 0 2 -\n",
        transcript: b"haystack 1 1 1 4096\n1 stored 0 1 1 903df1a0ade0b876\n2 full 0:0:4088:48\n3 full 0:0:4088:48\n",
    },
    // A delete that fails leaves the photo in sight, and closes the volume.
    Case {
        words: RUN,
        script: b"put 0 1 61\nfuse 0 0 0\ndel 0 1\nread 0 1 903df1a0ade0b876\ndel 0 1\nfuse 1 0 0\nfuse 0 1 0\nrestart 1\nread 0 1 903df1a0ade0b876\n",
        transcript: b"haystack 1 1 1 67108864\n1 stored 0 1 1 903df1a0ade0b876\n2 fused 0:0 0\n3 failed 0:0 1\n4 photo 0 0 1 1 61\n5 readonly 0:0\n6 nowhere\n7 nowhere\n8 restarted 1\nlost 0:0 3\n9 photo 0 0 0 1 61\n",
    },
    // Its mark was written and not synced: a stop may keep it.
    Case {
        words: RUN,
        script: b"put 0 1 61\nfuse 0 0 1\ndel 0 1\nread 0 1 903df1a0ade0b876\nrestart 1\nread 0 1 903df1a0ade0b876\n",
        transcript: b"haystack 1 1 1 67108864\n1 stored 0 1 1 903df1a0ade0b876\n2 fused 0:0 1\n3 failed 0:0 1\n4 photo 0 0 1 1 61\n5 restarted 1\nkept 0:0 3\n6 gone 0 0 0 1\n",
    },
    // Two volumes: a photo goes to the first try that takes it, and then stays there.
    Case {
        words: &["run", "--volumes", "2", "--capacity", "4096"],
        script: b"put 0 1 x3976:61\nput 0 1 -\nput 0 2 -\nput 0 2 x3977:62\nput 0 3 x3976:63\nput 0 3 x3928:63\n",
        transcript: b"haystack 1 2 1 4096\n1 stored 0 1 1 903df1a0ade0b876\n2 full 0:0:4088:48\n3 stored 1 1 2 903df1a0ade0b876\n4 full 1:0:112:4032\n5 full 0:0:4088:4024 1:0:112:4024\n6 stored 1 2 3 903df1a0ade0b876\n",
    },
    // An index that lags: what has no record is found, and what was deleted stays so.
    Case {
        words: &["run"],
        script: b"put 0 1 61\nput 0 2 62\nflush 0 0\nput 0 3 63\ndel 0 1\nrestart 0\nread 0 1 903df1a0ade0b876\nread 0 2 903df1a0ade0b876\nread 0 3 903df1a0ade0b876\n",
        transcript: b"haystack 1 1 1 67108864\n1 stored 0 1 1 903df1a0ade0b876\n2 stored 0 2 2 903df1a0ade0b876\n3 flushed 0:0 2\n4 stored 0 3 3 903df1a0ade0b876\n5 deleted 0 4 3\n6 restarted 3\n7 gone 0 0 0 3\n8 photo 0 0 0 3 62\n9 photo 0 0 0 3 63\n",
    },
    // A flush that fails closes the index alone.
    Case {
        words: &["run"],
        script: b"put 0 1 61\nfuse 0 0 2\nflush 0 0\nflush 0 0\nput 0 1 62\nrestart 0\nread 0 1 903df1a0ade0b876\n",
        transcript: b"haystack 1 1 1 67108864\n1 stored 0 1 1 903df1a0ade0b876\n2 fused 0:0 2\n3 failed 0:0 1\n4 readonly 0:0\n5 failed 0:0 2\n6 restarted 1\nlost 0:0 5\n7 photo 0 0 0 1 61\n",
    },
    // Replicas that differ: each tells what it kept.
    Case {
        words: &["run", "--machines", "2", "--replicas", "2"],
        script: b"put 0 1 61\nfuse 0 1 0\nput 0 1 62\nread 0 1 903df1a0ade0b876\nrestart 0\nread 0 1 903df1a0ade0b876\nread 0 1 903df1a0ade0b876\nput 0 1 63\nread 0 1 903df1a0ade0b876\n",
        transcript: b"haystack 2 1 2 67108864\n1 stored 0 1 1 903df1a0ade0b876\n2 fused 0:1 0\n3 failed 0:1 1\n4 photo 0 0 1 1 61\n5 restarted 1\nkept 0:0 3\nlost 0:1 3\n6 photo 0 0 0 1 62\n7 photo 0 1 0 1 61\n8 stored 0 1 1 903df1a0ade0b876\n9 photo 0 1 1 1 63\n",
    },
    // URLs name the machine of the start replica.
    Case {
        words: &[
            "run",
            "--machines",
            "3",
            "--volumes",
            "3",
            "--replicas",
            "2",
        ],
        script: b"put 144115188075855872 1 61\nurl 144115188075855872 1\nget http://store/2/2,0200000000000000_00000001_3736d58c374dc6c2\nget http://store/0/2,0200000000000000_00000001_3736d58c374dc6c2\nget http://store/1/2,0200000000000000_00000001_3736d58c374dc6c2\nget http://store/0/0,0200000000000000_00000001_3736d58c374dc6c2\nget http://store/2/2,0200000000000000_00000001_0000000000000000\nurl 144115188075855872 2\nget http://store/02/2,0200000000000000_00000001_3736d58c374dc6c2\n",
        transcript: b"haystack 3 3 2 67108864\n1 stored 2 1 1 3736d58c374dc6c2\n2 url 1 http://store/2/2,0200000000000000_00000001_3736d58c374dc6c2\n3 photo 2 2 1 1 61\n4 photo 2 0 1 1 61\n5 nowhere\n6 moved 2 1\n7 wrong cookie 2 2 1 1\n8 unknown 1\n9 bad line\n",
    },
    // A drained machine takes neither puts nor deletes.
    Case {
        words: &["run", "--machines", "2", "--volumes", "2"],
        script: b"put 0 1 61\ndrain 0\nput 0 1 62\ndel 0 1\nput 0 2 63\ndrain 1\nput 0 3 64\nread 0 1 903df1a0ade0b876\nundrain 0\nput 0 1 62\ndrain 2\n",
        transcript: b"haystack 2 2 1 67108864\n1 stored 0 1 1 903df1a0ade0b876\n2 drained 0\n3 readonly 0:0\n4 readonly 0:0\n5 stored 1 1 2 903df1a0ade0b876\n6 drained 1\n7 readonly 0:0 1:1\n8 photo 0 0 1 2 61\n9 undrained 0\n10 stored 0 2 2 903df1a0ade0b876\n11 nowhere\n",
    },
    // A row that could not be written is lost.
    Case {
        words: &["run"],
        script: b"fuse dir 0\nput 0 1 61\nput 0 2 62\nrestart 0\nread 0 1 903df1a0ade0b876\n",
        transcript: b"haystack 1 1 1 67108864\n1 fused dir 0\n2 failed dir 1\n3 readonly dir\n4 restarted 0\nlost dir 2\n5 unknown 0\n",
    },
    // A row that was written and not synced is there behind the stop, without its photo.
    Case {
        words: &["run"],
        script: b"fuse dir 3\nput 0 1 61\nput 0 2 62\nrestart 1\nread 0 1 903df1a0ade0b876\n",
        transcript: b"haystack 1 1 1 67108864\n1 fused dir 3\n2 failed dir 1\n3 readonly dir\n4 restarted 1\nkept dir 2\n5 gone 0 0 0 1\n",
    },
    // Volumes and machines that there are not.
    Case {
        words: &["run", "--machines", "2", "--volumes", "2"],
        script: b"flush 2 0\nflush 0 1\nflush 0 2\nflush 1 1\nfuse 0 1 5\nfuse 1 0 5\nundrain 2\nget http://store/1/0,0000000000000000_00000001_903df1a0ade0b876\ndrain 4294967295\n",
        transcript: b"haystack 2 2 1 67108864\n1 nowhere\n2 nowhere\n3 nowhere\n4 flushed 1:1 0\n5 nowhere\n6 nowhere\n7 nowhere\n8 nowhere\n9 nowhere\n",
    },
    // A photo that was overwritten and deleted while a copy stood does not come back.
    Case {
        words: RUN,
        script: b"put 0 1 61\nbegin 0 0\nstep 0 0 1\nput 0 1 62\ndel 0 1\nfinish 0 0\nread 0 1 903df1a0ade0b876\nrestart 0\nread 0 1 903df1a0ade0b876\n",
        transcript: b"haystack 1 1 1 67108864\n1 stored 0 1 1 903df1a0ade0b876\n2 begun 0:0 1\n3 stepped 0:0 1\n4 stored 0 2 1 903df1a0ade0b876\n5 deleted 0 3 1\n6 compacted 0:0 1\n7 gone 0 0 3 1\n8 restarted 1\n9 gone 0 0 0 1\n",
    },
    // A stop in the head switch: the old generation is current.
    Case {
        words: RUN,
        script: b"put 0 1 61\nbegin 0 0\nstep 0 0 1\nfuse 0 0 6\nfinish 0 0\nput 0 1 62\nrestart 0\nread 0 1 903df1a0ade0b876\ncompact 0 0\n",
        transcript: b"haystack 1 1 1 67108864\n1 stored 0 1 1 903df1a0ade0b876\n2 begun 0:0 1\n3 stepped 0:0 1\n4 fused 0:0 6\n5 failed 0:0 1\n6 readonly 0:0\n7 restarted 1\n8 photo 0 0 0 1 61\n9 compacted 0:0 1\n",
    },
    // The same stop keeps the new row: the new generation is current.
    Case {
        words: RUN,
        script: b"put 0 1 61\nbegin 0 0\nstep 0 0 1\nfuse 0 0 6\nfinish 0 0\nput 0 1 62\nrestart 1\nread 0 1 903df1a0ade0b876\ncompact 0 0\n",
        transcript: b"haystack 1 1 1 67108864\n1 stored 0 1 1 903df1a0ade0b876\n2 begun 0:0 1\n3 stepped 0:0 1\n4 fused 0:0 6\n5 failed 0:0 1\n6 readonly 0:0\n7 restarted 1\n8 photo 0 0 0 1 61\n9 compacted 0:0 2\n",
    },
    // A fault on the new file ends the compaction, and is no refusal of the delete.
    Case {
        words: RUN,
        script: b"put 0 1 61\nbegin 0 0\nstep 0 0 1\nfuse 0 0 2\ndel 0 1\nstep 0 0 1\nrestart 0\nread 0 1 903df1a0ade0b876\ncompact 0 0\n",
        transcript: b"haystack 1 1 1 67108864\n1 stored 0 1 1 903df1a0ade0b876\n2 begun 0:0 1\n3 stepped 0:0 1\n4 fused 0:0 2\n5 deleted 0 2 1\n6 idle 0:0\n7 restarted 1\n8 gone 0 0 0 1\n9 compacted 0:0 1\n",
    },
    // A delete is repeated on a copy that is deleted already: its third call is a write.
    Case {
        words: RUN,
        script: b"put 0 1 61\nbegin 0 0\nstep 0 0 1\ndel 0 1\nput 0 1 62\nfuse 0 0 2\ndel 0 1\nstep 0 0 1\n",
        transcript: b"haystack 1 1 1 67108864\n1 stored 0 1 1 903df1a0ade0b876\n2 begun 0:0 1\n3 stepped 0:0 1\n4 deleted 0 2 1\n5 stored 0 3 1 903df1a0ade0b876\n6 fused 0:0 2\n7 deleted 0 4 1\n8 idle 0:0\n",
    },
    // A compaction that stands, one that does not, and a volume that there is not.
    Case {
        words: RUN,
        script: b"begin 0 0\nbegin 0 0\ncompact 0 0\nstep 0 0 5\nfinish 0 0\nfinish 0 0\nstep 0 0 1\nbegin 1 0\n",
        transcript: b"haystack 1 1 1 67108864\n1 begun 0:0 1\n2 busy 0:0 1\n3 busy 0:0 1\n4 stepped 0:0 0\n5 compacted 0:0 1\n6 idle 0:0\n7 idle 0:0\n8 nowhere\n",
    },
    // Each replica has a compaction of its own. A freeze ends all, and a restart too.
    Case {
        words: &["run", "--machines", "2", "--replicas", "2"],
        script: b"put 0 1 61\nbegin 0 1\nstep 0 0 1\ncompact 0 0\nfinish 0 1\nbegin 0 0\nfuse 0 1 0\nput 0 1 62\nbegin 0 0\nstep 0 0 1\nfinish 0 1\ncompact 0 1\nrestart 1\nstep 0 0 1\nbegin 0 0\ncompact 0 1\n",
        transcript: b"haystack 2 1 2 67108864\n1 stored 0 1 1 903df1a0ade0b876\n2 begun 0:1 1\n3 idle 0:0\n4 compacted 0:0 1\n5 compacted 0:1 1\n6 begun 0:0 2\n7 fused 0:1 0\n8 failed 0:1 1\n9 readonly 0:1\n10 readonly 0:1\n11 readonly 0:1\n12 readonly 0:1\n13 restarted 1\nkept 0:0 8\nlost 0:1 8\n14 idle 0:0\n15 begun 0:0 2\n16 compacted 0:1 2\n",
    },
    // A drained machine takes compactions, and behind one no record is missing.
    Case {
        words: RUN,
        script: b"put 0 1 61\ndrain 0\nbegin 0 0\nstep 0 0 9\nfinish 0 0\nflush 0 0\nundrain 0\nput 0 2 62\nflush 0 0\n",
        transcript: b"haystack 1 1 1 67108864\n1 stored 0 1 1 903df1a0ade0b876\n2 drained 0\n3 begun 0:0 1\n4 stepped 0:0 1\n5 compacted 0:0 1\n6 flushed 0:0 0\n7 undrained 0\n8 stored 0 2 2 903df1a0ade0b876\n9 flushed 0:0 1\n",
    },
    // A compaction opens the index again that a failed flush closed.
    Case {
        words: RUN,
        script: b"put 0 1 61\nfuse 0 0 0\nflush 0 0\nflush 0 0\nfuse 0 0 99\ncompact 0 0\nput 0 2 62\nflush 0 0\nrestart 0\nread 0 2 903df1a0ade0b876\n",
        transcript: b"haystack 1 1 1 67108864\n1 stored 0 1 1 903df1a0ade0b876\n2 fused 0:0 0\n3 failed 0:0 1\n4 readonly 0:0\n5 fused 0:0 99\n6 compacted 0:0 1\n7 stored 0 2 2 903df1a0ade0b876\n8 flushed 0:0 1\n9 restarted 2\n10 photo 0 0 0 2 62\n",
    },
    // A compaction gives room back.
    Case {
        words: &["run", "--capacity", "4096"],
        script: b"put 0 1 x3976:61\nput 0 1 x3976:62\ncompact 0 0\nput 0 1 -\ndel 0 1\ncompact 0 0\nput 0 1 x3976:62\nput 0 1 -\nread 0 1 903df1a0ade0b876\n",
        transcript: b"haystack 1 1 1 4096\n1 stored 0 1 1 903df1a0ade0b876\n2 full 0:0:4088:4024\n3 compacted 0:0 1\n4 full 0:0:4088:48\n5 deleted 0 2 1\n6 compacted 0:0 2\n7 stored 0 3 1 903df1a0ade0b876\n8 full 0:0:4088:48\n9 photo 0 0 3 1 x3976:62\n",
    },
    // Compactions of machines that have no replica.
    Case {
        words: &["run", "--machines", "2", "--volumes", "2"],
        script: b"begin 0 1\nstep 1 0 1\nfinish 2 0\ncompact 0 2\ncompact 1 1\nstep 0 0 0\nstep 0 0\nbegin 0\ncompact 1 1 1\n",
        transcript: b"haystack 2 2 1 67108864\n1 nowhere\n2 nowhere\n3 nowhere\n4 nowhere\n5 compacted 1:1 1\n6 bad line\n7 bad line\n8 bad line\n9 bad line\n",
    },
];
